//! Where an edge has ends of pseudowires.

use net_base::{EdgeId, WireId};

/// The place of one end of a pseudowire at an edge: a segment of a wire of which the edge is one of the two edges. A
/// terminal edge of a wire has one end of it, and a switching point has two (RFC 6073 section 4).
#[derive(Clone, Copy, Debug, PartialEq, Eq)]
pub struct EndPlace {
    /// The wire.
    pub wire: WireId,
    /// The edge at the other end of the segment.
    pub peer: EdgeId,
    /// The PW ID, the same on every segment of the wire (RFC 8077 section 6.1).
    pub pw_id: u32,
    /// The segment's number on the path, from 0.
    pub segment: u8,
    /// 0 at the segment's first edge on the path, and 1 at its second.
    pub side: u8,
    /// Whether the edge is a terminal edge of the wire.
    pub terminal: bool,
}
