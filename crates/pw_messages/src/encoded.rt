//! A message in a PDU of its own.
ghost use Rattle.std.specs.Prelude.{◌≡◌, ◌≤◌, ◌+◌, length, true, IfOk};
ghost use Rattle.ldp_grammar.specs.Written.{message_octets, writable, written};
ghost use Rattle.pw_messages.specs.Sender.{platform_of};

use crate::sender::platform_of;
use ldp_codec::encode_into;
use ldp_grammar::{LdpId, Message};
use net_base::{Addr, List, NoMemory, Octets};
use std::alloc::Global;

/// The most octets of a PDU that an edge puts: 4 before the PDU Length counts, and then at most 256.
const LONGEST: usize = 260;

/// The octets of a message, in a PDU of its own from a router's platform label space (RFC 5036 section 3.1). The message can be written,
/// and the PDU Length is at most 256.
pub fn pdu_octets(alloc: Global, message: &Message, router: Addr) -> Result<Octets, NoMemory>
    requires writable { writable message.now ≡ true }
    requires short { 6 + length (message_octets message.now) ≤ 256 }
    ensures { IfOk result (λ octets. octets ≡ written message.now (platform_of router)) }
{
    let mut out = [0u8; LONGEST];
    encoded(alloc, message, platform_of(router), &mut out)
}

// The octets of a message, in a PDU of its own; `out` has room for them.
#[tactic(auto, using(crate::proofs::EncodedLemmas::front_is))]
fn encoded(alloc: Global, message: &Message, id: LdpId, out: &mut [u8]) -> Result<Octets, NoMemory>
    requires writable { writable message.now ≡ true }
    requires short { 6 + length (message_octets message.now) ≤ 256 }
    requires room { 260 ≤ length out.old }
    ensures { IfOk result (λ octets. octets ≡ written message.now id) }
{
    let count = encode_into(message, id, out);
    let (octets, _) = out.split_at(count);
    List::from_bytes(alloc, octets)
}
