//! Peers that send what they like, and links that fail: what an edge answers, and what it holds of it. All octets were worked out
//! by hand.

use crate::edge::proposals::{KEEP_ALIVE_OF_B, KEEP_ALIVE_OF_C, PROPOSAL_OF_B, PROPOSAL_OF_C};
use crate::edge::pseudowires::UP;
use crate::edge::side::{Side, side_of, take};
use crate::edge::steps::{Step, play, plays};
use crate::octets::{octets_of, push_octets};
use crate::scenarios::{A, B, C, CORE, SITES};
use edge_model::Input;
use net_base::{DropCause, Reason, StateName};
use std::alloc::Global;
use std::process::Abort;

/// What a stranger sends, and the Notification that the edge puts before it ends the session (RFC 5036 section 3.5.1.2).
type Fault = (&'static str, &'static str);

/// A version other than 1; a length that no PDU has, of a message that passes its PDU, and of a TLV that passes its message; a
/// Status TLV of three octets.
const FAULTS: [Fault; 5] = [
    (
        "0002",
        "0001001c0a000001000000010012000000010300000a80000002000000000000",
    ),
    (
        "0001000d",
        "0001001c0a000001000000010012000000010300000a80000003000000000000",
    ),
    (
        "0001000e 0a0000020000 0201 0003 00000001",
        "0001001c0a000001000000010012000000010300000a80000005000000000000",
    ),
    (
        "00010012 0a0000020000 0001 0008 00000001 0300000a",
        "0001001c0a000001000000010012000000010300000a80000007000000000000",
    ),
    (
        "00010012 0a0000020000 0001 0008 00000001 03000000",
        "0001001c0a000001000000010012000000010300000a80000008000000000000",
    ),
];

// A session that waits for an Initialization ends by a fault, and what comes behind it is nobody's.
fn ends_by(rt: &impl Abort, alloc: Global, fault: &Fault) {
    let (sent, answer) = *fault;
    let steps = [
        Step::Connected(B),
        Step::Session(B, StateName::Initialized),
        Step::Hears(B, sent),
        Step::Gives(3),
        Step::Told(1, StateName::Ended(Reason::Decode)),
        Step::Put(0, B, answer),
        Step::Calls(1),
        Step::Gone(B),
        Step::Held(B, 0),
        Step::Hears(B, PROPOSAL_OF_B),
        Step::Idle,
        Step::Calls(1),
    ];
    plays(rt, alloc, SITES, A, 0, &[], &steps);
}

#[test]
fn a_fault_ends_the_session(rt: HostRuntime) {
    let alloc = rt.alloc();
    for fault in FAULTS.as_slice() {
        ends_by(&rt, alloc, fault);
    }
}

// A Label Mapping up to its label, for the wire's PW ID and for 999, which no wire has; and what follows the label.
const MAPS_100: &str =
    "00010032 0a0000010000 0400 0028 00000003 01000010 80800508 00000000 00000064 010405dc 02000004";

const MAPS_999: &str =
    "00010032 0a0000010000 0400 0028 00000003 01000010 80800508 00000000 000003e7 010405dc 02000004";

const STATUS_0: &str = "896a0004 00000000";

// Hears as many mappings, with each label from 16 on.
fn hears_mappings(rt: &impl Abort, alloc: Global, side: &mut Side, front: &str, count: u16) {
    for number in 0..count {
        let mut mapping = octets_of(rt, alloc, front);
        let label = (16 + u32::from(number)).to_be_bytes();
        mapping.extend_from_slice(&label).expect(rt, "memory");
        push_octets(rt, &mut mapping, STATUS_0);
        let bytes = mapping.as_slice();
        take(rt, alloc, side, Input::Octets { peer: A, bytes });
    }
}

// The edge with the larger address, whose session is up, hears 10,000 mappings; what it has to have done then.
fn holds_after(rt: &impl Abort, alloc: Global, front: &str, steps: &[Step]) {
    let mut side = side_of(rt, alloc, SITES, B, 0);
    play(rt, alloc, &mut side, &UP);
    hears_mappings(rt, alloc, &mut side, front, 10000);
    play(rt, alloc, &mut side, steps);
    drop(side);
}

/// The last label is kept, and none is released.
const BINDS_THE_LAST: [Step; 3] = [Step::Bound(10015), Step::Calls(3), Step::Held(A, 0)];

/// Each label is released (RFC 5036 section 3.5.11): the first by message 4, the last by message 10003.
const RELEASES_EACH: [Step; 5] = [
    Step::Bound(0),
    Step::Calls(10003),
    Step::Held(A, 0),
    Step::Put(
        3,
        A,
        "00010026 0a0000020000 0403 001c 00000004 0100000c 80800504 00000000 000003e7 02000004 00000010",
    ),
    Step::Put(
        10002,
        A,
        "00010026 0a0000020000 0403 001c 00002713 0100000c 80800504 00000000 000003e7 02000004 0000271f",
    ),
];

#[test]
fn ten_thousand_mappings_leave_one_binding(rt: HostRuntime) {
    let alloc = rt.alloc();
    holds_after(&rt, alloc, MAPS_100, &BINDS_THE_LAST);
    holds_after(&rt, alloc, MAPS_999, &RELEASES_EACH);
}

/// The link takes not even the Initialization: nothing is told but that the session ended.
const CONNECTS_IN_VAIN: [Step; 5] = [
    Step::Connected(A),
    Step::Gives(3),
    Step::Told(0, StateName::Initialized),
    Step::Told(1, StateName::Ended(Reason::LinkFault)),
    Step::Gone(A),
];

// What B and C tell of their wires: label 16, status 0.
const MAPPING_OF_B: &str =
    "00010032 0a0000020000 0400 0028 00000003 01000010 80800508 00000000 00000064 010405dc \
     02000004 00000010 896a0004 00000000";

const MAPPING_OF_C: &str =
    "00010032 0a0000030000 0400 0028 00000003 01000010 80800508 00000000 00000065 010405dc \
     02000004 00000010 896a0004 00000000";

/// Both sessions of a core edge come up, and both wires carry frames.
const BOTH_UP: [Step; 9] = [
    Step::Connected(B),
    Step::Hears(B, PROPOSAL_OF_B),
    Step::Hears(B, KEEP_ALIVE_OF_B),
    Step::Hears(B, MAPPING_OF_B),
    Step::Connected(C),
    Step::Hears(C, PROPOSAL_OF_C),
    Step::Hears(C, KEEP_ALIVE_OF_C),
    Step::Hears(C, MAPPING_OF_C),
    Step::Calls(6),
];

const BROADCAST: &str = "ffffffffffff 020000000001 0800";

/// What B does not get, C and the other circuit do; and no session ends.
const GOES_ON_TO_THE_OTHERS: [Step; 8] = [
    Step::Frame(0, BROADCAST),
    Step::Gives(3),
    Step::Left(0, 1, BROADCAST),
    Step::DroppedAt(1, DropCause::LinkFault),
    Step::SentOn(2, C, 1),
    Step::Calls(8),
    Step::Session(B, StateName::Operational),
    Step::Session(C, StateName::Operational),
];

#[test]
fn a_link_fault_stays_where_it_is(rt: HostRuntime) {
    let alloc = rt.alloc();
    plays(&rt, alloc, SITES, B, 1, &[], &CONNECTS_IN_VAIN);
    plays(&rt, alloc, CORE, A, 7, &BOTH_UP, &GOES_ON_TO_THE_OTHERS);
}
