//! When a packet was sent.

/// When a packet under way was sent, and its number. The one that was sent earliest comes first, and of two that were sent
/// between the same ticks the one with the lower number.
#[derive(Clone, Copy, PartialEq, Eq, PartialOrd, Ord, Drop)]
pub struct Sending {
    /// How many ticks had passed when the packet was sent, or when the packet was that it is a copy of.
    pub since: u64,
    /// The number of the packet.
    pub number: u64,
}
