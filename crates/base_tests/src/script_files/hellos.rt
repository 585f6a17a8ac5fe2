//! Hellos as they are said, and octets that are none.
use crate::script_files::plans::{A, B, C, adjacencies};
use crate::words::{holds, is_same};
use ldp_discovery::{Adjacencies, HELLO_SIZE, Heard, HelloFault};
use net_base::EdgeId;
use std::alloc::Global;
use std::process::Abort;

/// The octets of the next Hello of an edge.
pub fn said(rt: &impl Abort, edge: &mut Adjacencies, peer: EdgeId, hold: u16) -> [u8; HELLO_SIZE] {
    holds(rt, (peer.0 as usize) < edge.count(), "an edge");
    let mut octets = [0; HELLO_SIZE];
    edge.say(peer, hold, &mut octets);
    octets
}

// Octets that an edge of the address 10.0.0.1 has said, the first and the second one; and what 10.0.0.2 has said to it.
const FIRST: [u8; 34] = [
    0, 1, 0, 0x1e, 10, 0, 0, 1, 0, 0, 1, 0, 0, 0x14, 0, 0, 0, 1, 4, 0, 0, 4, 0, 45, 0xc0, 0, 4, 1,
    0, 4, 10, 0, 0, 1,
];

const SECOND: [u8; 34] = [
    0, 1, 0, 0x1e, 10, 0, 0, 1, 0, 0, 1, 0, 0, 0x14, 0, 0, 0, 2, 4, 0, 0, 4, 0xff, 0xff, 0xc0, 0,
    4, 1, 0, 4, 10, 0, 0, 1,
];

#[test]
fn says_hellos_under_rising_numbers(rt: HostRuntime) {
    let mut a = adjacencies(&rt, rt.alloc(), A);
    holds(
        &rt,
        is_same(&said(&rt, &mut a, B, 45), &FIRST),
        "the first Hello",
    );
    holds(
        &rt,
        is_same(&said(&rt, &mut a, C, 65535), &SECOND),
        "the second Hello",
    );
}

#[test]
fn knows_which_edges_are_joined(rt: HostRuntime) {
    let a = adjacencies(&rt, rt.alloc(), A);
    holds(&rt, a.is_joined(B), "joined");
    holds(&rt, !a.is_joined(C), "not joined");
    holds(&rt, !a.is_joined(A), "not joined to itself");
}

// Nothing; a Hello that ends early; a KeepAlive; a link Hello; one of another label space, of another edge, and with the transport address
// of another one.
const FAULTS: [(&[u8], HelloFault); 7] = [
    (&[], HelloFault::NotPdu),
    (
        &[0, 1, 0, 0x1e, 10, 0, 0, 2, 0, 0, 1, 0, 0, 0x14],
        HelloFault::NotPdu,
    ),
    (
        &[0, 1, 0, 14, 10, 0, 0, 2, 0, 0, 2, 1, 0, 4, 0, 0, 0, 1],
        HelloFault::NotHello,
    ),
    (
        &[
            0, 1, 0, 22, 10, 0, 0, 2, 0, 0, 1, 0, 0, 12, 0, 0, 0, 1, 4, 0, 0, 4, 0, 15, 0, 0,
        ],
        HelloFault::NotTargeted,
    ),
    (
        &[
            0, 1, 0, 22, 10, 0, 0, 2, 0, 1, 1, 0, 0, 12, 0, 0, 0, 1, 4, 0, 0, 4, 0, 15, 0xc0, 0,
        ],
        HelloFault::WrongSender,
    ),
    (
        &[
            0, 1, 0, 22, 10, 0, 0, 3, 0, 0, 1, 0, 0, 12, 0, 0, 0, 1, 4, 0, 0, 4, 0, 15, 0xc0, 0,
        ],
        HelloFault::WrongSender,
    ),
    (
        &[
            0, 1, 0, 30, 10, 0, 0, 2, 0, 0, 1, 0, 0, 20, 0, 0, 0, 1, 4, 0, 0, 4, 0, 15, 0xc0, 0, 4,
            1, 0, 4, 10, 0, 0, 3,
        ],
        HelloFault::WrongSender,
    ),
];

/// An edge hears octets of the peer B, of which this comes.
pub fn hears(rt: &impl Abort, alloc: Global, edge: &mut Adjacencies, octets: &[u8], want: Heard) {
    holds(rt, (B.0 as usize) < edge.count(), "an edge");
    let heard = edge.hear(alloc, B, octets).ok().expect(rt, "memory");
    holds(rt, heard == want, "what comes of the octets");
}

// An edge ignores octets of the peer B for this fault, and has no adjacency with it.
fn ignores(
    rt: &impl Abort,
    alloc: Global,
    edge: &mut Adjacencies,
    octets: &[u8],
    fault: HelloFault,
) {
    hears(rt, alloc, edge, octets, Heard::Ignored(fault));
    holds(rt, !edge.lives(B), "no adjacency");
}

#[test]
fn tells_why_octets_are_no_hello(rt: HostRuntime) {
    let mut a = adjacencies(&rt, rt.alloc(), A);
    for (octets, fault) in FAULTS.as_slice() {
        ignores(&rt, rt.alloc(), &mut a, octets, *fault);
    }
}

// A Hello without a transport address, and one with the PDU's own.
#[test]
fn hears_a_hello_without_a_transport_address(rt: HostRuntime) {
    let mut a = adjacencies(&rt, rt.alloc(), A);
    let octets = [
        0, 1, 0, 22, 10, 0, 0, 2, 0, 0, 1, 0, 0, 12, 0, 0, 0, 1, 4, 0, 0, 4, 0, 15, 0xc0, 0,
    ];
    hears(&rt, rt.alloc(), &mut a, &octets, Heard::Fresh);
    holds(&rt, a.lives(B), "an adjacency");
    holds(&rt, !a.lives(C), "no other one");
}
