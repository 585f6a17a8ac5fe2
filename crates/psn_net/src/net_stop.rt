//! Why a network goes no further.

use thiserror::Error;

/// Why a network did not do an event. `event` is the number of that event, counted from 1.
#[derive(Clone, Copy, Debug, PartialEq, Eq, Error)]
pub enum NetStop {
    /// 65,536 or more packets are under way, and the event may send one: a frame, an arrival, a repetition or a ping. Network
    /// and trace are as they were.
    #[error("Crowded {count} {event}")]
    Crowded { count: u32, event: u64 },
    /// The trace weighs more than 268,435,456. Network and trace are as they were.
    #[error("TooMuch {weight} {event}")]
    TooMuch { weight: u64, event: u64 },
    /// Memory was refused. The network is given up, and each later event answers the same.
    #[error("NoMemory")]
    NoMemory,
}
