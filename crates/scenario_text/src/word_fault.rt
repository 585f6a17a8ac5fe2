//! Why words are no command.

use thiserror::Error;

/// Why words were not read as a command.
#[derive(Clone, Copy, Debug, PartialEq, Eq, Error)]
pub enum WordFault {
    /// The word of this number, from 1, is missing, one too many, or not what has to stand there.
    #[error("{0}")]
    Bad(u32),
    /// Memory was refused.
    #[error("out of memory")]
    NoMemory,
}
