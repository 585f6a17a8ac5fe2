//! The types of the TLVs that are read or passed over, without U and F bit.

/// FEC (RFC 5036 section 3.4.1).
pub const FEC: u16 = 0x0100;

/// Address List (RFC 5036 section 3.4.3).
pub const ADDRESS_LIST: u16 = 0x0101;

/// Generic Label (RFC 5036 section 3.4.2.1).
pub const LABEL: u16 = 0x0200;

/// Status (RFC 5036 section 3.4.6).
pub const STATUS: u16 = 0x0300;

/// Common Hello Parameters (RFC 5036 section 3.5.2).
pub const HELLO_PARAMETERS: u16 = 0x0400;

/// IPv4 Transport Address (RFC 5036 section 3.5.2).
pub const TRANSPORT_ADDRESS: u16 = 0x0401;

/// MAC List (RFC 4762 section 6.2).
pub const MAC_LIST: u16 = 0x0404;

/// Common Session Parameters (RFC 5036 section 3.5.3).
pub const SESSION_PARAMETERS: u16 = 0x0500;

/// Label Request Message ID (RFC 5036 section 3.5.9).
pub const REQUEST_ID: u16 = 0x0600;

/// PW Status (RFC 8077 section 6.3.2).
pub const PW_STATUS: u16 = 0x096a;

/// Switching Point PE (RFC 6073 section 7.4).
pub const SWITCHING_POINT: u16 = 0x096d;

/// Hop Count, passed over (RFC 5036 section 3.4.4).
pub const HOP_COUNT: u16 = 0x0103;

/// Path Vector, passed over (RFC 5036 section 3.4.5).
pub const PATH_VECTOR: u16 = 0x0104;

/// Extended Status, passed over (RFC 5036 section 3.5.1).
pub const EXTENDED_STATUS: u16 = 0x0301;

/// Returned PDU, passed over (RFC 5036 section 3.5.1).
pub const RETURNED_PDU: u16 = 0x0302;

/// Returned Message, passed over (RFC 5036 section 3.5.1).
pub const RETURNED_MESSAGE: u16 = 0x0303;

/// Configuration Sequence Number, passed over (RFC 5036 section 3.5.2).
pub const CONFIGURATION_NUMBER: u16 = 0x0402;
