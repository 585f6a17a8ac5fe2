//! What is told of messages that are not processed.
ghost use Rattle.std.specs.Prelude.{◌≡◌, IfSome};
ghost use Rattle.session_core.specs.Messages.{HasData};
ghost use Rattle.edge_model.specs.Hear.{advice_of, advisory};

use ldp_grammar::{Message, MessageKind, StatusCode, Why};
use session_core::Reply;

/// The status data of an unknown message type (RFC 5036 section 3.5.1.2.1).
const UNKNOWN_MESSAGE_TYPE: u32 = 0x04;

/// The status data of an unknown TLV.
const UNKNOWN_TLV: u32 = 0x06;

/// The status data of missing message parameters.
const MISSING_PARAMETERS: u32 = 0x16;

/// The status data of an unknown FEC.
const UNKNOWN_FEC: u32 = 0x0c;

/// What is told of a message that is not processed (RFC 5036 sections 3.4.6, 3.5.1.2.1 and 3.5.1.2.2): of one of an unknown
/// type, where it says so by U = 0, and of one that lacks something or has something unknown, unless it is itself a
/// Notification.
pub fn advice_of(message: &Message) -> Option<Reply>
    ensures advice { result ≡ advice_of message.now }
    ensures data { IfSome result HasData }
{
    match message {
        Message::Other { u: false, .. } => Some(advisory(message, UNKNOWN_MESSAGE_TYPE)),
        Message::Unprocessed { kind, why, .. } => {
            if *kind == MessageKind::Notification.number() {
                return None;
            }
            let code = match *why {
                Why::UnknownTlv(_) => UNKNOWN_TLV,
                Why::Missing(_) => MISSING_PARAMETERS,
                Why::UnknownFec(_) => UNKNOWN_FEC,
            };
            Some(advisory(message, code))
        }
        _ => None,
    }
}

// An advisory Notification about a message.
fn advisory(message: &Message, code: u32) -> Reply
    ensures { result ≡ advisory message.now code }
{
    Reply::Notice(StatusCode {
        fatal: false,
        forward: false,
        code,
        message: message.id(),
        kind: message.message_type(),
    })
}
