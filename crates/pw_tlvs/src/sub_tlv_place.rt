//! Places of sub-TLVs.

/// Where a sub-TLV stands in the value of a TLV.
#[derive(Clone, Copy)]
pub struct SubTlvPlace {
    /// Its place in the value, in octets from 0.
    pub at: u16,
    /// Whether a sub-TLV of the same type stands before it.
    pub again: bool,
}
