//! Rows of octets and what they come to.
ghost use Rattle.std.specs.Prelude.{◌≡◌, ◌≤◌, ◌<◌, length, true};
ghost use Rattle.ldp_grammar.specs.Written.{address_octets, list_length, mac_count, macs_length, message_octets, writable};

use crate::rows::About;
use crate::words::{holds, is_front, is_told};
use ldp_codec::{decode_pdu, encode_into, view_pdu};
use ldp_grammar::{AddressList, LdpId, Message, Pdu, is_writable, message_size};
use net_base::{Addr, List, Mac};
use std::alloc::Global;
use std::process::Abort;

// The sender of the PDUs that are read.
const SENDER: LdpId = LdpId {
    router: Addr([10, 0, 0, 1]),
    space: 0,
};

// The message that stands alone in a PDU.
fn only_message(pdu: &Pdu) -> Option<&Message> {
    match pdu.messages.as_slice() {
        [message] => Some(message),
        _ => None,
    }
}

// How many octets of addresses there are, and how many MAC addresses.
fn octets_in(addresses: &Option<AddressList>) -> usize
    ensures { result ≡ list_length addresses.now }
{
    match addresses {
        Some(list) => list.octets.len(),
        None => 0,
    }
}

fn macs_in(macs: &Option<List<Mac>>) -> usize
    ensures { result ≡ macs_length macs.now }
{
    match macs {
        Some(list) => list.len(),
        None => 0,
    }
}

// Whether a message has few addresses.
fn has_few(message: &Message) -> bool
    ensures few { result ≡ true → address_octets message.now ≤ 100 }
    ensures few_macs { result ≡ true → mac_count message.now ≤ 100 }
{
    match message {
        Message::Address { octets, .. } => octets.len() <= 100,
        Message::AddressWithdraw {
            addresses,
            macs,
            ..
        } => octets_in(addresses) <= 100 && macs_in(macs) <= 100,
        _ => true,
    }
}

// The octets of a message that can be written, and is short.
fn size_of(rt: &impl Abort, message: &Message) -> usize
    ensures writable { writable message.now ≡ true }
    ensures size { result ≡ length (message_octets message.now) }
    ensures short { result < 86 }
{
    holds(rt, is_writable(message), "writable");
    holds(rt, has_few(message), "few addresses");
    let size = message_size(message);
    holds(rt, size < 86, "a short message");
    size
}

// The message is written as these octets, and those behind them stay.
fn is_written(rt: &impl Abort, message: &Message, octets: &[u8]) {
    let mut out = [0xeeu8; 96];
    let size = size_of(rt, message);
    let count = encode_into(message, SENDER, &mut out);
    holds(rt, count == 10 + size, "a header and the message");
    holds(rt, octets.len() == count, "so many octets");
    holds(rt, is_front(&out, octets), "the octets");
}

// The message of a PDU has these words; where its sender is not 10.0.0.1:0, the whole PDU has them.
fn has_words(rt: &impl Abort, alloc: Global, pdu: &Pdu, words: &str) {
    let message = only_message(pdu).expect(rt, "one message");
    if pdu.id == SENDER {
        is_told(rt, alloc, message, words);
    } else {
        is_told(rt, alloc, pdu, words);
    }
}

// The same, and the message is written as these octets again, or cannot be written.
fn is_pdu(rt: &impl Abort, alloc: Global, about: About, pdu: &Pdu, octets: &[u8], words: &str) {
    has_words(rt, alloc, pdu, words);
    let message = only_message(pdu).expect(rt, "one message");
    match about {
        About::BothWays => is_written(rt, message, octets),
        About::OneWay => holds(rt, !is_writable(message), "not writable"),
        _ => {}
    }
}

// Octets that lie in two pieces, which meet at this place, are the message or have the fault of these words.
fn is_lent(rt: &impl Abort, alloc: Global, octets: &[u8], at: usize, words: &str) {
    let (front, back) = octets.split_at(at.min(octets.len()));
    match view_pdu(front, back, 4096) {
        Ok(view) => {
            let pdu = view.read(alloc).expect(rt, "memory");
            has_words(rt, alloc, &pdu, words);
        }
        Err(fault) => is_told(rt, alloc, &fault, words),
    }
}

/// The octets of a row are the message or have the fault of its words, also where they lie in two pieces, wherever those meet.
pub fn agrees(rt: &impl Abort, alloc: Global, about: About, octets: &[u8], words: &str) {
    match decode_pdu(alloc, octets, 4096) {
        Ok(pdu) => is_pdu(rt, alloc, about, &pdu, octets, words),
        Err(fault) => is_told(rt, alloc, &fault, words),
    }
    for at in 0..octets.len() {
        is_lent(rt, alloc, octets, at, words);
    }
}
