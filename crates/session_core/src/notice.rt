//! The notifications that a session puts (RFC 5036 sections 3.4.6 and 3.9).
ghost use Rattle.std.specs.Prelude.{◌≡◌};
ghost use Rattle.session_core.specs.StatusCodes.{about, about_none, data_of};

use crate::Reply;
use ldp_codec::DecodeFault;
use ldp_grammar::{Message, StatusCode};

/// The PDU is of another sender.
pub const BAD_LDP_IDENTIFIER: u32 = 0x01;

/// Another protocol version.
pub const BAD_PROTOCOL_VERSION: u32 = 0x02;

/// The PDU Length is out of range.
pub const BAD_PDU_LENGTH: u32 = 0x03;

/// A Message Length is out of range.
pub const BAD_MESSAGE_LENGTH: u32 = 0x05;

/// A TLV Length is out of range.
pub const BAD_TLV_LENGTH: u32 = 0x07;

/// The value of a TLV is malformed.
pub const MALFORMED_TLV_VALUE: u32 = 0x08;

/// The session is shut down.
pub const SHUTDOWN: u32 = 0x0a;

/// The Initialization is for another receiver ("Session Rejected/No Hello").
pub const NO_HELLO: u32 = 0x10;

/// Nothing was heard for the hold time.
pub const KEEP_ALIVE_TIMER_EXPIRED: u32 = 0x14;

/// The KeepAlive Time is 0.
pub const BAD_KEEP_ALIVE_TIME: u32 = 0x18;

/// Memory was refused.
pub const INTERNAL_ERROR: u32 = 0x19;

/// A fatal Notification about the message: its Message ID and its type without U bit tell which (RFC 5036 section 3.4.6).
pub fn about(message: &Message, code: u32) -> Reply
    ensures { result ≡ about message.now code }
{
    Reply::Notice(StatusCode {
        fatal: true,
        forward: false,
        code,
        message: message.id(),
        kind: message.message_type(),
    })
}

/// A fatal Notification about no message.
pub fn about_none(code: u32) -> Reply
    ensures { result ≡ about_none code }
{
    Reply::Notice(StatusCode {
        fatal: true,
        forward: false,
        code,
        message: 0,
        kind: 0,
    })
}

/// The status data that tells what is wrong in a PDU (RFC 5036 sections 3.5.1.2.1 and 3.5.1.2.2).
pub fn data_of(fault: DecodeFault) -> u32
    ensures { result ≡ data_of fault }
{
    match fault {
        DecodeFault::Version { .. } => BAD_PROTOCOL_VERSION,
        DecodeFault::PduLength { .. } => BAD_PDU_LENGTH,
        DecodeFault::MessageLength { .. } => BAD_MESSAGE_LENGTH,
        DecodeFault::TlvLength { .. } => BAD_TLV_LENGTH,
        DecodeFault::TlvValue { .. } | DecodeFault::Repeated { .. } => MALFORMED_TLV_VALUE,
        DecodeFault::NoMemory => INTERNAL_ERROR,
    }
}
