//! Segments of wires.

use net_base::{EdgeId, SegKey};

/// A segment of a wire's path (RFC 6073 section 4), and the two edges that it joins, in the order of the path.
#[derive(Clone, Copy)]
pub struct Segment {
    pub key: SegKey,
    pub first: EdgeId,
    pub next: EdgeId,
}
