//! One thing of a network that is lost.
use net_base::{CircuitId, EdgeId, WireId};

/// What an event takes from a network, in whatever state it comes: whom a flooded frame reaches once all has settled is decided by the
/// faults, and not by the order in which they came.
#[derive(Clone, Copy, Debug, PartialEq, Eq)]
pub enum Fault {
    /// The connection between two neighbours does not stand at both ends any more (RFC 5036 section 2.5).
    Session { one: EdgeId, other: EdgeId },
    /// No connection of an edge stands at both ends any more: it has restarted.
    Edge { edge: EdgeId },
    /// A wire is off at an edge of its path, or one of its ends has failure bits (RFC 4446 section 3.5).
    Wire { wire: WireId },
    /// The spoke on a wire has this priority number (RFC 6870).
    Priority { wire: WireId, priority: u8 },
    /// A circuit is off.
    Circuit { circuit: CircuitId },
}
