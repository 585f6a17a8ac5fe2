//! What a session puts.
ghost use Rattle.std.specs.Prelude.{◌≡◌, ◌≤◌, ◌+◌, true, length};
ghost use Rattle.ldp_grammar.specs.Written.{address_octets, mac_count, message_octets, writable};
ghost use Rattle.session_core.specs.Messages.{HasData, message_of};

use crate::Peers;
use ldp_grammar::{Message, StatusCode};

/// A message that a session puts to its peer.
#[derive(Clone, Copy, Debug, PartialEq, Eq)]
pub enum Reply {
    /// An Initialization with what `Peers::proposal` gives (RFC 5036 section 3.5.3).
    Init,
    /// A KeepAlive (RFC 5036 section 3.5.4).
    KeepAlive,
    /// A Notification with this status (RFC 5036 section 3.5.1).
    Notice(StatusCode),
}

impl Reply {
    /// The reply as a message with this Message ID, from this end to the other. It can be written where a status has data
    /// of 30 bits, which all that a session puts has, and a PDU with it alone has a PDU Length of at most 256.
    pub fn message(self, id: u32, peers: &Peers) -> Message
        ensures message { result ≡ message_of self id peers.now }
        ensures writable { HasData self → writable result ≡ true }
        ensures short { 6 + length (message_octets result) ≤ 256 }
        ensures no_addresses { address_octets result ≡ 0 }
        ensures no_macs { mac_count result ≡ 0 }
    {
        match self {
            Reply::Init => Message::Initialization {
                id,
                params: peers.proposal(),
            },
            Reply::KeepAlive => Message::KeepAlive { id },
            Reply::Notice(status) => Message::Notification {
                id,
                status,
                pw_status: None,
                fec: None,
            },
        }
    }
}
