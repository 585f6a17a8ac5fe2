//! Why a message is not processed.

use net_values::Field;

/// Why a message without a fault is not processed; the first reason that holds.
#[derive(Clone, Copy, Debug, PartialEq, Eq)]
pub enum Why {
    /// The type of the first TLV that is unknown in the message and has U = 0 (RFC 5036 section 3.3).
    UnknownTlv(u16),
    /// The first TLV that the message needs and lacks (RFC 5036 section 3.5.1.2.1); of an Address Withdraw that has
    /// neither addresses nor both a FEC and a MAC list the Address List; of a Label Mapping the FEC, where that has no PW
    /// ID.
    Missing(Field),
    /// The first octet of a FEC that is no single PWid element (RFC 5036 section 3.4.1.1).
    UnknownFec(u8),
}
