//! A packet that leaves an edge.

use crate::trail::Trail;
use net_base::{EdgeId, Octets, WireId};

/// A packet that leaves an edge and has no number yet.
#[derive(Drop)]
pub struct Departure {
    /// The wire that it is sent on.
    pub wire: WireId,
    /// The edge that sends it.
    pub from: EdgeId,
    /// The neighbour on the wire's path to which it goes.
    pub to: EdgeId,
    /// The frame that it carries a copy of, and the segments that the copy will have passed when it arrives.
    pub trail: Trail,
    /// The label stack, the control word where there is one, and the frame (RFC 3032, RFC 4448).
    pub bytes: Octets,
}
