//! Lines against texts that were written by hand from the layouts of RFC 5036 section 3.5. The program's tests decode
//! messages of every kind.

use crate::hex::octets_of;
use crate::words::{holds, is_same};
use ldp_codec::view_pdu;
use ldp_grammar::{Message, Why};
use message_text::{put_messages, put_views};
use net_base::Addr;
use std::alloc::Global;
use std::process::Abort;

const LINES: &str =
    "0 KeepAlive id=1\n18 Hello id=7 hold=45/1/0 transport=10.0.0.2\n18 KeepAlive id=4294967295\n18 Other id=9 type=16128\n18 Unprocessed id=2 type=513 why=UnknownTlv:16128\n";

// A text of one line.
fn one_line(rt: &impl Abort, alloc: Global) -> Vec<u8> {
    Vec::from_slice(alloc, b"0 KeepAlive id=1\n").expect(rt, "memory")
}

// Behind a line stand the lines of these messages.
fn adds(rt: &impl Abort, alloc: Global, messages: &[Message]) {
    let mut text = one_line(rt, alloc);
    put_messages(&mut text, 18, messages).expect(rt, "memory");
    holds(rt, is_same(text.as_slice(), LINES.as_bytes()), LINES);
}

// The same messages in a PDU of 10.0.0.1:0.
const PDU: &str =
    "0001003a0a0000010000 0100001400000007 04000004 002d8000 04010004 0a000002 02010004ffffffff bf00000400000009 0201000800000002 3f000000";

// Behind a line stand those of the messages of a PDU that is lent, in two pieces.
fn adds_lent(rt: &impl Abort, alloc: Global, octets: &[u8]) {
    let (front, back) = octets.split_at(octets.len() / 2);
    let view = view_pdu(front, back, 4096).ok().expect(rt, "a PDU");
    let mut text = one_line(rt, alloc);
    put_views(alloc, &mut text, 18, &view).expect(rt, "memory");
    holds(rt, is_same(text.as_slice(), LINES.as_bytes()), LINES);
}

#[test]
fn adds_a_line_for_each_lent_message(rt: HostRuntime) {
    let octets = octets_of(&rt, rt.alloc(), PDU);
    adds_lent(&rt, rt.alloc(), octets.as_slice());
}

#[test]
fn adds_a_line_for_each_message(rt: HostRuntime) {
    let messages = [
        Message::Hello {
            id: 7,
            hold: 45,
            targeted: true,
            request: false,
            transport: Some(Addr([10, 0, 0, 2])),
        },
        Message::KeepAlive { id: u32::MAX },
        Message::Other {
            id: 9,
            u: true,
            kind: 16128,
        },
        Message::Unprocessed {
            id: 2,
            kind: 513,
            why: Why::UnknownTlv(16128),
        },
    ];
    adds(&rt, rt.alloc(), &messages);
}
