//! Streams of octets that were worked out by hand, in pieces and whole.
ghost use Rattle.std.specs.Prelude.{◌≤◌};

use crate::hex::octets_of;
use crate::steps::{event_of, number_of};
use crate::words::{holds, is_told};
use ldp_grammar::Pdu;
use ldp_stream::{Stream, StreamFault};
use std::alloc::Global;
use std::process::Abort;

// What the stream lends, as a value of its own.
fn lent(rt: &impl Abort, alloc: Global, stream: &Stream) -> Result<Option<Pdu>, StreamFault> {
    match stream.peek() {
        Ok(Some(view)) => Ok(Some(view.read(alloc).expect(rt, "memory"))),
        Ok(None) => Ok(None),
        Err(fault) => Err(fault),
    }
}

// What the stream lends, and answers next, has these words.
fn is_next(rt: &impl Abort, alloc: Global, stream: &mut Stream, words: &str) {
    let lent = lent(rt, alloc, stream);
    is_told(rt, alloc, &lent, words);
    let next = stream.next(alloc);
    is_told(rt, alloc, &next, words);
}

// Octets come; how many are taken.
fn feed(rt: &impl Abort, alloc: Global, stream: &mut Stream, digits: &str) -> usize {
    let octets = octets_of(rt, alloc, digits);
    stream.feed(octets.as_slice())
}

// Octets come, and all are taken.
fn feed_whole(rt: &impl Abort, stream: &mut Stream, octets: &[u8]) {
    holds(rt, stream.feed(octets) == octets.len(), "all are taken");
}

// Zeros come, at most 4095; how many are taken.
fn feed_zeros(stream: &mut Stream, count: usize) -> usize {
    let zeros = [0u8; 4095];
    let (zeros, _) = zeros.split_at(count.min(4095));
    stream.feed(zeros)
}

// A PDU Length may be no more than this.
fn limit(rt: &impl Abort, stream: &mut Stream, max: usize) -> usize {
    holds(rt, 256 <= max, "256 at least");
    holds(rt, max <= 4096, "4,096 at most");
    stream.set_max(max as u16);
    max
}

// The number that comes of a step: of octets (`feed`) or of so many `zeros`, those that are taken; the `max` of a PDU Length;
// and else how many octets are held, also of a stream that is made `anew`.
fn count_of(rt: &impl Abort, alloc: Global, stream: &mut Stream, letter: u8, more: &str) -> usize {
    match letter {
        b'f' => feed(rt, alloc, stream, more),
        b'z' => feed_zeros(stream, number_of(rt, more) as usize),
        b'm' => limit(rt, stream, number_of(rt, more) as usize),
        b'a' => {
            *stream = Stream::new(alloc).expect(rt, "memory");
            stream.held()
        }
        _ => stream.held(),
    }
}

// Octets come one by one, and each is taken. Before it the next PDU has these words.
fn feed_singly(rt: &impl Abort, alloc: Global, stream: &mut Stream, digits: &str, words: &str) {
    let octets = octets_of(rt, alloc, digits);
    for octet in octets.as_slice() {
        is_next(rt, alloc, stream, words);
        feed_whole(rt, stream, &[*octet]);
    }
}

// A step comes to what stands behind it: the words of the `next` PDU, those of the next PDU while octets come `singly`, or a
// number.
fn take(rt: &impl Abort, alloc: Global, stream: &mut Stream, step: &str, want: &str) {
    let (letter, more) = event_of(rt, step);
    match letter {
        b'n' => is_next(rt, alloc, stream, want),
        b's' => feed_singly(rt, alloc, stream, more, want),
        _ => {
            let count = count_of(rt, alloc, stream, letter, more);
            holds(rt, count == number_of(rt, want) as usize, want);
        }
    }
}

// A stream takes the steps of a script, which are so many: each line with `= ` is one.
fn goes_through(rt: &impl Abort, alloc: Global, stream: &mut Stream, script: &str, count: usize) {
    let mut rows: usize = 0;
    for line in script.lines() {
        if let Some((step, want)) = line.split_once("= ") {
            take(rt, alloc, stream, step.trim(), want);
            rows = rows.saturating_add(1);
        }
    }
    holds(rt, rows == count, "so many rows");
}

// Octets are refused with the fault at the place 0 as soon as the last of them is held, and from then on.
const PIECES: &str = "
    One PDU, octet by octet.
    singly 0001000e0a0000010000 0201000400000001 = Ok(None)
    held = 18
    next = Ok(Some(Pdu { id: LdpId { router: Addr([10, 0, 0, 1]), space: 0 }, messages: List { items: [KeepAlive { id: 1 }] } }))
    held = 0
    next = Ok(None)
    The maximum falls below the PDU Length.
    anew = 0
    feed 00010101 = 4
    next = Ok(None)
    max 257 = 257
    next = Ok(None)
    max 256 = 256
    next = Err(Refused { base: 0, fault: PduLength { at: 2 } })
    The longest PDU, whose first message has the length 0.
    anew = 0
    feed 00011000 = 4
    zeros 4095 = 4095
    held = 4099
    next = Ok(None)
    zeros 3 = 1
    zeros 3 = 0
    held = 4100
    next = Err(Refused { base: 0, fault: MessageLength { at: 12 } })
    Another version.
    anew = 0
    singly 0002 = Ok(None)
    next = Err(Refused { base: 0, fault: Version { at: 0 } })
    feed 0001000e0a0000010000 0201000400000001 = 0
    held = 2
    next = Err(Refused { base: 0, fault: Version { at: 0 } })
    A PDU Length below 14.
    anew = 0
    singly 0001000d = Ok(None)
    next = Err(Refused { base: 0, fault: PduLength { at: 2 } })
    feed 0001000e0a0000010000 0201000400000001 = 0
    held = 4
    next = Err(Refused { base: 0, fault: PduLength { at: 2 } })
    A PDU Length of 4097.
    anew = 0
    singly 00011001 = Ok(None)
    next = Err(Refused { base: 0, fault: PduLength { at: 2 } })
    feed 0001000e0a0000010000 0201000400000001 = 0
    held = 4
    next = Err(Refused { base: 0, fault: PduLength { at: 2 } })
    Message Length 3.
    anew = 0
    singly 0001000e0a0000010000 0201000300000001 = Ok(None)
    next = Err(Refused { base: 0, fault: MessageLength { at: 12 } })
    feed 0001000e0a0000010000 0201000400000001 = 0
    held = 18
    next = Err(Refused { base: 0, fault: MessageLength { at: 12 } })
";

#[test]
fn answers_and_refuses_pieces(rt: HostRuntime) {
    let mut stream = Stream::new(rt.alloc()).expect(&rt, "memory");
    goes_through(&rt, rt.alloc(), &mut stream, PIECES, 45);
}

// KeepAlive with the Message ID 1, and one with an unknown TLV and the Message ID 2.
const TWO: &str =
    "0001000e0a0000010000 0201000400000001 000100120a0000010000 0201000800000002 bf000000";

// The words of these two.
static PDUS: [&str; 2] = [
    "Ok(Some(Pdu { id: LdpId { router: Addr([10, 0, 0, 1]), space: 0 }, messages: List { items: [KeepAlive { id: 1 }] } }))",
    "Ok(Some(Pdu { id: LdpId { router: Addr([10, 0, 0, 1]), space: 0 }, messages: List { items: [KeepAlive { id: 2 }] } }))",
];

// How many of the two PDUs end within so many octets.
fn ended_within(count: usize) -> usize
    ensures { result ≤ 2 }
{
    match count {
        0..18 => 0,
        18..40 => 1,
        _ => 2,
    }
}

// Octets come, and all are taken; the next PDUs have then these words, and then there is none.
fn goes_on(rt: &impl Abort, alloc: Global, stream: &mut Stream, octets: &[u8], pdus: &[&str]) {
    feed_whole(rt, stream, octets);
    for words in pdus {
        is_next(rt, alloc, stream, words);
    }
    is_next(rt, alloc, stream, "Ok(None)");
}

// Two PDUs that come in these two pieces.
fn takes(rt: &impl Abort, alloc: Global, stream: &mut Stream, front: &[u8], back: &[u8]) {
    let (first, second) = PDUS.split_at(ended_within(front.len()));
    goes_on(rt, alloc, stream, front, first);
    goes_on(rt, alloc, stream, back, second);
    holds(rt, stream.held() == 0, "no octet is held");
}

// Octets that are cut at a place.
fn is_cut(rt: &impl Abort, alloc: Global, octets: &[u8], at: usize) {
    let (front, back) = octets.split_at(at.min(octets.len()));
    let mut stream = Stream::new(alloc).expect(rt, "memory");
    takes(rt, alloc, &mut stream, front, back);
}

#[test]
fn answers_the_same_of_each_cut(rt: HostRuntime) {
    let octets = octets_of(&rt, rt.alloc(), TWO);
    holds(&rt, octets.len() == 40, "40 octets");
    for at in 0..41 {
        is_cut(&rt, rt.alloc(), octets.as_slice(), at);
    }
}

// The first octets of a PDU.
const FRONT: &str = "    feed 0001000e0a0000010000 = 10";

// The others, and the first octets of the next.
const EACH_PDU: &str = "
    feed 0201000400000001 = 8
    feed 0001000e0a0000010000 = 10
    next = Ok(Some(Pdu { id: LdpId { router: Addr([10, 0, 0, 1]), space: 0 }, messages: List { items: [KeepAlive { id: 1 }] } }))
    next = Ok(None)
";

// 501 PDUs of 18 octets stood before.
const LAST_PDU: &str = "
    feed 0201000400000001 = 8
    next = Ok(Some(Pdu { id: LdpId { router: Addr([10, 0, 0, 1]), space: 0 }, messages: List { items: [KeepAlive { id: 1 }] } }))
    feed 0002 = 2
    next = Err(Refused { base: 9018, fault: Version { at: 0 } })
";

// The front of a PDU, 500 times the rest of one and the front of the next, and a PDU that is refused.
#[test]
fn goes_on_past_its_room(rt: HostRuntime) {
    let alloc = rt.alloc();
    let mut stream = Stream::new(alloc).expect(&rt, "memory");
    goes_through(&rt, alloc, &mut stream, FRONT, 1);
    for _pdu in 0..500 {
        goes_through(&rt, alloc, &mut stream, EACH_PDU, 4);
    }
    goes_through(&rt, alloc, &mut stream, LAST_PDU, 4);
}
