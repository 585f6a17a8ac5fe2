//! The message that tells what an edge calls a wire.
ghost use Rattle.std.specs.Prelude.{◌≡◌, ◌≤◌, ◌+◌, length, true, IfOk};
ghost use Rattle.ldp_grammar.specs.Written.{message_octets, writable, written};
ghost use Rattle.pw_messages.specs.Sender.{platform_of};
ghost use Rattle.independent_model.specs.Tell.{notification};

use ldp_grammar::Message;
use net_base::{Addr, EdgeId, NoMemory, Octets, WirePlan};
use pw_messages::{content_of, pdu_octets, status_notification};
use status_exchange::{Wish, status_of};
use std::alloc::Global;

/// The edge that sends a message.
#[derive(Clone, Copy)]
pub struct Sender {
    pub me: EdgeId,
    pub router: Addr,
}

// The Notification with this Message ID that tells what an edge calls a wire (RFC 8077 section 6.3.2). It can be written, and a PDU with
// it alone has a PDU Length of at most 256.
fn notification(row: &WirePlan, me: EdgeId, wish: Wish, id: u32) -> Message
    ensures message { result ≡ notification row.now me.0 wish id }
    ensures writable { writable result ≡ true }
    ensures short { 6 + length (message_octets result) ≤ 256 }
{
    let told = content_of(&row.offer_of(me), None);
    status_notification(row.pw_id, status_of(wish), &told, id)
}

/// Its octets, in a PDU of its own.
pub fn notification_octets(
    alloc: Global,
    row: &WirePlan,
    sender: Sender,
    wish: Wish,
    id: u32,
) -> Result<Octets, NoMemory>
    ensures { IfOk result (λ octets. octets ≡ written (notification row.now sender.me.0 wish id) (platform_of sender.router)) }
{
    let message = notification(row, sender.me, wish, id);
    pdu_octets(alloc, &message, sender.router)
}
