//! What can be wrong with the octets of a PDU.

use net_values::Field;

/// What is wrong with octets that spell no PDU (RFC 5036 sections 3.5.1.2.1 and 3.5.1.2.2).
#[derive(Clone, Copy, Debug, PartialEq, Eq)]
pub enum Cause {
    /// The version is not 1.
    Version,
    /// The PDU Length is below 14, above the maximum, or not the number of octets behind it.
    PduLength,
    /// The Message Length is below 4 or past the PDU's end, or 1 to 3 octets stand where a message begins.
    MessageLength,
    /// The TLV's Length is past the message's end, or 1 to 3 octets stand where a TLV begins.
    TlvLength,
    /// The value does not fit the layout of its TLV, or that of a part within it.
    TlvValue(Field),
    /// A TLV comes once more than its message may have it, or a part once more than its TLV may.
    Repeated(Field),
}
