//! Why an edge takes no input.

use thiserror::Error;

/// Why an edge did not take an input.
#[derive(Clone, Copy, Debug, PartialEq, Eq, Error)]
pub enum EdgeStop {
    /// Memory was refused. The edge is given up.
    #[error("out of memory")]
    NoMemory,
    /// An earlier input was refused memory.
    #[error("stopped")]
    Stopped,
}
