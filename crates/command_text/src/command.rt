//! The commands of a scenario.

use net_base::{CircuitId, Event, Word};

/// One entry of a document's `events`.
#[derive(Debug, Drop)]
pub enum Command {
    /// One event.
    One(Event),
    /// The next delivery of octets, so many times (1 to 10000), while there is one.
    Settle(u32),
    /// The next arrival of a packet, so many times (1 to 10000), while there is one.
    Flow(u32),
    /// So many ticks (1 to 10000).
    Ticks(u32),
    /// The frames of a capture file enter at a circuit, one by one.
    Play(CircuitId, Word),
}
