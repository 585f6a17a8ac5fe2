//! How a packet goes on.

use crate::Side;
use net_base::Label;

/// How a switching point passes a packet on (RFC 6073 section 4).
#[derive(Clone, Copy, Debug, PartialEq, Eq)]
pub struct Swapped {
    /// The side by which it goes on.
    pub side: Side,
    /// The label under which it goes on.
    pub label: Label,
    /// The TTL with which it goes on, 1 to 254.
    pub ttl: u8,
}
