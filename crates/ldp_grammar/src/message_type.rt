//! The types of the messages that are known, without U bit (RFC 5036 section 3.7).

/// Notification (RFC 5036 section 3.5.1).
pub const NOTIFICATION: u16 = 0x0001;

/// Hello (RFC 5036 section 3.5.2).
pub const HELLO: u16 = 0x0100;

/// Initialization (RFC 5036 section 3.5.3).
pub const INITIALIZATION: u16 = 0x0200;

/// KeepAlive (RFC 5036 section 3.5.4).
pub const KEEP_ALIVE: u16 = 0x0201;

/// Address (RFC 5036 section 3.5.5).
pub const ADDRESS: u16 = 0x0300;

/// Address Withdraw (RFC 5036 section 3.5.6).
pub const ADDRESS_WITHDRAW: u16 = 0x0301;

/// Label Mapping (RFC 5036 section 3.5.7).
pub const LABEL_MAPPING: u16 = 0x0400;

/// Label Request (RFC 5036 section 3.5.8).
pub const LABEL_REQUEST: u16 = 0x0401;

/// Label Withdraw (RFC 5036 section 3.5.10).
pub const LABEL_WITHDRAW: u16 = 0x0402;

/// Label Release (RFC 5036 section 3.5.11).
pub const LABEL_RELEASE: u16 = 0x0403;

/// Label Abort Request (RFC 5036 section 3.5.9).
pub const LABEL_ABORT: u16 = 0x0404;
