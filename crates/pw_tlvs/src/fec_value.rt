//! What the value of a FEC TLV is.

use crate::PwFec;

/// The value of a FEC TLV (RFC 5036 section 3.4.1).
#[derive(Clone, Copy, Debug, PartialEq, Eq)]
pub enum FecValue {
    /// One PWid FEC element (RFC 8077 section 6.1).
    Pw(PwFec),
    /// Anything else, with its first octet: an element of another type, or a PWid FEC element that further
    /// octets follow. It is not looked into.
    Foreign(u8),
}
