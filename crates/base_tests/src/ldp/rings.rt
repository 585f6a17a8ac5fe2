//! A stream whose octets begin at each place of its ring, and what it lends of them.
ghost use Rattle.std.specs.Prelude.{◌≡◌, true};
ghost use Rattle.ldp_stream.specs.Seen.{HasNext};

use crate::hex::octets_of;
use crate::words::{holds, is_told};
use ldp_codec::{MessageView, Part};
use ldp_stream::Stream;
use std::alloc::Global;
use std::process::Abort;

// KeepAlive of 10.0.0.1:0 with the Message ID 1.
const KEEP_ALIVE: &str = "0001000e0a0000010000 0201000400000001";

// One with an unknown TLV, of 23 octets.
const ODD: &str = "000100130a0000010000 0201000900000001 bf00000100";

// Initialization of 10.0.0.2:0.
const INITIALIZATION: &str =
    "000100200a0000020000 0200001600000001 0500000e 000100b4000010000a0000010000";

const INITIALIZATION_WORDS: &str =
    "Ok(Some(Pdu { id: LdpId { router: Addr([10, 0, 0, 2]), space: 0 }, messages: List { items: [Initialization { id: 1, params: SessionParams { version: 1, keepalive: 180, demand: false, loops: false, limit: 0, max_pdu: 4096, receiver: LdpId { router: Addr([10, 0, 0, 1]), space: 0 } } }] } }))";

// Octets come one by one, and before each of them nothing is lent.
fn comes(rt: &impl Abort, stream: &mut Stream, octets: &[u8]) {
    for octet in octets {
        let waits = match stream.peek() {
            Ok(None) => true,
            _ => false,
        };
        holds(rt, waits, "nothing is lent");
        holds(rt, stream.feed(&[*octet]) == 1, "one octet is taken");
    }
}

// The message that stands alone in front.
fn only_message(stream: &Stream) -> Option<MessageView<'_>> {
    let view = match stream.peek() {
        Ok(Some(view)) => view,
        _ => return None,
    };
    if view.len() != 1 {
        return None;
    }
    view.message(0)
}

// Whether a KeepAlive with the Message ID 1 is lent.
fn is_keep_alive(message: &MessageView<'_>) -> bool {
    message.is_keep_alive()
        && message.kind() == 0x0201
        && message.number() == 1
        && message.value(0x0500).is_none()
}

// A KeepAlive is lent.
fn lends_keep_alive(rt: &impl Abort, stream: &Stream) {
    let message = only_message(stream).expect(rt, "a message");
    holds(rt, is_keep_alive(&message), "a KeepAlive");
}

// The parameters of an Initialization, with this KeepAlive Time and receiver.
fn are_parameters(rt: &impl Abort, value: &Part<'_>) {
    holds(rt, value.len() == 14, "14 octets");
    holds(rt, value.two(2) == 180, "the KeepAlive Time");
    holds(rt, value.byte(8) == 10, "the first octet of the receiver");
    holds(rt, value.four(8) == 0x0a00_0001, "the receiver");
}

// An Initialization is lent; how many of its parameters lie in two pieces.
fn lends_parameters(rt: &impl Abort, stream: &Stream) -> usize {
    let message = only_message(stream).expect(rt, "a message");
    holds(rt, !message.is_keep_alive(), "no KeepAlive");
    holds(rt, message.value(0x0100).is_none(), "no FEC");
    let value = message.value(0x0500).expect(rt, "parameters");
    are_parameters(rt, &value);
    if value.as_slice().is_some() { 0 } else { 1 }
}

// Whether a PDU stands in front.
fn has_front(stream: &Stream) -> bool
    ensures { result ≡ true → HasNext stream.now }
{
    match stream.peek() {
        Ok(Some(_view)) => true,
        _ => false,
    }
}

// The PDU in front is given up.
fn give_up(rt: &impl Abort, stream: &mut Stream) {
    holds(rt, has_front(stream), "a PDU in front");
    stream.pass();
}

// A KeepAlive comes and is given up, and an Initialization comes and is taken; whether its parameters lie in two pieces.
fn turns(rt: &impl Abort, alloc: Global, stream: &mut Stream, alive: &[u8], begun: &[u8]) -> usize {
    comes(rt, stream, alive);
    lends_keep_alive(rt, stream);
    give_up(rt, stream);
    comes(rt, stream, begun);
    let parted = lends_parameters(rt, stream);
    let next = stream.next(alloc);
    is_told(rt, alloc, &next, INITIALIZATION_WORDS);
    parted
}

// The same 2,050 times: each turn begins 54 octets behind the one before, in a ring of 4,100, so that each PDU begins once at
// each second place.
fn goes_round(rt: &impl Abort, alloc: Global, stream: &mut Stream) -> usize {
    let alive = octets_of(rt, alloc, KEEP_ALIVE);
    let begun = octets_of(rt, alloc, INITIALIZATION);
    let mut parted: usize = 0;
    for _turn in 0..2050 {
        parted = parted.saturating_add(turns(
            rt,
            alloc,
            stream,
            alive.as_slice(),
            begun.as_slice(),
        ));
    }
    parted
}

// From the places with even numbers to those with odd ones.
fn goes_on(rt: &impl Abort, alloc: Global, stream: &mut Stream) {
    let odd = octets_of(rt, alloc, ODD);
    comes(rt, stream, odd.as_slice());
    give_up(rt, stream);
}

// The parameters, 14 octets, lie in two pieces where they begin at one of the last 13 places.
#[test]
fn lends_at_each_place(rt: HostRuntime) {
    let alloc = rt.alloc();
    let mut stream = Stream::new(alloc).expect(&rt, "memory");
    let even = goes_round(&rt, alloc, &mut stream);
    goes_on(&rt, alloc, &mut stream);
    let odd = goes_round(&rt, alloc, &mut stream);
    holds(&rt, (even, odd) == (6, 7), "six and seven in two pieces");
    holds(&rt, stream.held() == 0, "no octet is held");
}
