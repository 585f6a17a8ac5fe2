//! One link in memory through its calls.

use crate::words::{holds, is_told};
use net_base::{EdgeId, Link, LinkStop, List, MemLink};
use std::alloc::Global;
use std::process::Abort;

// A call: its peer and its octets, whether they are a packet, and what the link answers.
type Call = (u16, &'static [u8], bool, &'static str);

const CALLS: [Call; 3] = [
    (1, &[1, 2], false, "None"),
    (2, &[3], true, "Some(Failed)"),
    (2, &[4], true, "None"),
];

// The same calls, as the link keeps them.
const KEPT: &str =
    "List { items: [LinkCall { peer: EdgeId(1), packet: false, bytes: List { items: [1, 2] }, taken: true }, LinkCall { peer: EdgeId(2), packet: true, bytes: List { items: [3] }, taken: false }, LinkCall { peer: EdgeId(2), packet: true, bytes: List { items: [4] }, taken: true }] }";

// Puts octets on a connection, or sends a packet; what the link answers.
fn answer(link: &mut MemLink, peer: EdgeId, bytes: &[u8], packet: bool) -> Option<LinkStop> {
    if packet {
        link.send(peer, bytes).err()
    } else {
        link.put(peer, bytes).err()
    }
}

// Makes a call, which the link answers so.
fn makes(rt: &impl Abort, alloc: Global, link: &mut MemLink, call: &Call) {
    let (peer, bytes, packet, words) = call;
    let stop = answer(link, EdgeId(*peer), bytes, *packet);
    is_told(rt, alloc, &stop, words);
}

// Makes each call; one of them fails, and all are kept.
fn makes_each(rt: &impl Abort, alloc: Global, link: &mut MemLink) {
    for call in CALLS.as_slice() {
        makes(rt, alloc, link, call);
    }
    holds(rt, link.faults() == 1, "one fault");
    is_told(rt, alloc, link.calls(), KEPT);
}

// The second call.
fn second(rt: &impl Abort, alloc: Global) -> List<u64> {
    let mut fails = List::new(alloc);
    fails.push(2).expect(rt, "memory");
    fails
}

#[test]
fn keeps_what_it_is_given_and_what_failed(rt: HostRuntime) {
    let alloc = rt.alloc();
    let fails = second(&rt, alloc);
    let mut link = MemLink::new(alloc, fails).expect(&rt, "memory");
    makes_each(&rt, alloc, &mut link);
}
