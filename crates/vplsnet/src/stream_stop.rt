//! Why the writing of a stream's lines stopped.

use ldp_stream::StreamFault;

/// Why the writing of a stream's lines stopped.
#[derive(Clone, Copy, Debug)]
pub enum StreamStop {
    /// The stream has this first fault, or memory was refused.
    Fault(StreamFault),
    /// The sink failed.
    Failed,
}
