//! The words of a packet that was sent.

/// What the line of a packet that was sent tells, in the order of its words.
#[derive(Clone, Copy)]
pub struct SentWords<'a> {
    /// The packet's number.
    pub packet: u64,
    /// The edge that sent it.
    pub from: &'a [u8],
    /// The neighbour to which it goes.
    pub to: &'a [u8],
    /// The wire of which it is.
    pub wire: &'a [u8],
    /// By what its frame came.
    pub arrival: &'a [u8],
    /// The number of its frame.
    pub origin: u64,
    /// How many segments it has passed.
    pub hops: u64,
    /// Its octets.
    pub octets: &'a [u8],
}
