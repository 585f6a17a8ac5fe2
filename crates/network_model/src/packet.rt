//! A packet under way.

use net_base::{EdgeId, Octets, WireId};

/// A packet that was sent and that has not reached its edge yet.
#[derive(Debug, Drop)]
pub struct Packet {
    /// The number of the packet, counted from 1 as packets are sent.
    pub number: u64,
    /// The wire that it was sent on.
    pub wire: WireId,
    /// The edge that sent it.
    pub from: EdgeId,
    /// The neighbour on the wire's path to which it goes.
    pub to: EdgeId,
    /// The number of the frame that it carries a copy of; 0 for a ping and its answer.
    pub origin: u64,
    /// The segments that the copy will have passed when it arrives.
    pub hops: u64,
    /// The ticks that have passed since it was sent, or since the packet was that it is a copy of.
    pub age: u8,
    /// The label stack, the control word where there is one, and the frame (RFC 3032, RFC 4448).
    pub bytes: Octets,
}
