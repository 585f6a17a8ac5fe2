//! The headers of PDUs, messages and TLVs.

/// The only version (RFC 5036 section 3.1).
pub const VERSION: u16 = 1;

/// The octets of a PDU that its PDU Length does not count: version and PDU Length (RFC 5036 section 3.1).
pub const LENGTH_HEADER: usize = 4;

/// The least PDU Length: an identifier, and a message without TLVs (RFC 5036 sections 3.1 and 3.5).
pub const LEAST_LENGTH: u16 = 14;

/// The octets of a PDU before its messages: version, PDU Length and the sender's identifier (RFC 5036 section 3.1).
pub const PDU_HEADER: usize = 10;

/// The octets of a message before its TLVs: type, Message Length and Message ID (RFC 5036 section 3.5).
pub const MESSAGE_HEADER: usize = 8;

/// The octets of a TLV before its value: type and Length (RFC 5036 section 3.3).
pub const TLV_HEADER: usize = 4;

/// The U bit in the word with a message's or a TLV's type (RFC 5036 sections 3.3 and 3.5).
pub const U_BIT: u16 = 0x8000;
