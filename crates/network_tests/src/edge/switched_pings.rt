//! Pings over a switching point, as it passes them on, and as an edge at an end of the wire asks and answers them (RFC 5085, RFC 6073
//! section 4). Octets were worked out by hand.

use crate::edge::proposals::{KEEP_ALIVE_OF_B, PROPOSAL_OF_B};
use crate::edge::steps::{Step, plays};
use crate::edge::stitches::UP;
use crate::scenarios::{A, B, C, PATH_BY_ALERT, PATH_BY_EXPIRY, PATH_BY_HEADER};
use net_base::DropCause;
use std::alloc::Global;
use std::process::Abort;

// What the two ends tell of the wire with a control word, A with label 16 and C with label 500; and what the edge between them tells C
// of A and A of C behind its own point, with labels 16 and 17. The type of control channel stands in it as it was told.
const WITH_WORD_OF_A: &str =
    "000100360a0000010000 0400002c00000003 01000014 8080050c 00000000 00000064 010405dc 0c040101 0200000400000010 896a000400000000";

const WITH_WORD_OF_C: &str =
    "000100360a0000030000 0400002c00000003 01000014 8080050c 00000000 00000064 010405dc 0c040101 02000004000001f4 896a000400000000";

const WITH_WORD_TO_C: &str =
    "0001004c0a0000020000 0400004200000003 01000014 8080050c 00000000 00000064 010405dc 0c040101 0200000400000010 896a000400000000 896d0012 010400000064 03040a000002 04040a000001";

const WITH_WORD_TO_A: &str =
    "0001004c0a0000020000 0400004200000003 01000014 8080050c 00000000 00000064 010405dc 0c040101 0200000400000011 896a000400000000 896d0012 010400000064 03040a000002 04040a000003";

// The same without a control word.
const WITHOUT_WORD_OF_A: &str =
    "000100360a0000010000 0400002c00000003 01000014 8000050c 00000000 00000064 010405dc 0c040601 0200000400000010 896a000400000000";

const WITHOUT_WORD_OF_C: &str =
    "000100360a0000030000 0400002c00000003 01000014 8000050c 00000000 00000064 010405dc 0c040601 02000004000001f4 896a000400000000";

const WITHOUT_WORD_TO_A: &str =
    "0001004c0a0000020000 0400004200000003 01000014 8000050c 00000000 00000064 010405dc 0c040601 0200000400000011 896a000400000000 896d0012 010400000064 03040a000002 04040a000003";

// The same with a router alert alone.
const ALERT_ALONE_TO_A: &str =
    "0001004c0a0000020000 0400004200000003 01000014 8000050c 00000000 00000064 010405dc 0c040201 0200000400000011 896a000400000000 896d0012 010400000064 03040a000002 04040a000003";

// The edge between them withdraws label 17 from A, which releases it, and tells A of C again, with label 18.
const WITHDRAWAL_TO_A: &str =
    "000100260a0000020000 0402001c00000004 0100000c8080050400000000000000640200000400000011";

const RELEASE_OF_A: &str =
    "000100260a0000010000 0403001c00000004 0100000c8080050400000000000000640200000400000011";

const WITH_WORD_TO_A_AGAIN: &str =
    "0001004c0a0000020000 0400004200000005 01000014 8080050c 00000000 00000064 010405dc 0c040101 0200000400000012 896a000400000000 896d0012 010400000064 03040a000002 04040a000003";

// By an associated channel header: the first ping of A and the answer of C to it, each as it leaves its edge, and as it leaves the edge
// between them.
const ASKED_BY_HEADER: &str =
    "000111ff 10000021 4500001c00000000ff01a7dd 0a000001 0a000003 0800f79a00640001";

const ASKED_BY_HEADER_TO_C: &str =
    "001f41fe 10000021 4500001c00000000ff01a7dd 0a000001 0a000003 0800f79a00640001";

const ANSWERED_BY_HEADER: &str =
    "000101ff 10000021 4500001c00000000ff01a7dd 0a000003 0a000001 0000ff9a00640001";

const ANSWERED_BY_HEADER_TO_A: &str =
    "000101fe 10000021 4500001c00000000ff01a7dd 0a000003 0a000001 0000ff9a00640001";

// The first ping of C as it comes to A, and A's answer.
const OTHER_BY_HEADER_TO_A: &str =
    "000101fe 10000021 4500001c00000000ff01a7dd 0a000003 0a000001 0800f79a00640001";

const ANSWER_BY_HEADER_OF_A: &str =
    "000111ff 10000021 4500001c00000000ff01a7dd 0a000001 0a000003 0000ff9a00640001";

// The second ping of A, under label 18.
const ASKED_AGAIN: &str =
    "000121ff 10000021 4500001c00000000ff01a7dd 0a000001 0a000003 0800f79900640002";

// By a TTL that expires: 2 where it is asked, since the mapping has one point, and 1 where it is taken.
const ASKED_BY_EXPIRY: &str =
    "00011102 4500001c00000000ff01a7dd 0a000001 0a000003 0800f79a00640001";

const ASKED_BY_EXPIRY_TO_C: &str =
    "001f4101 4500001c00000000ff01a7dd 0a000001 0a000003 0800f79a00640001";

const ANSWERED_BY_EXPIRY: &str =
    "00010102 4500001c00000000ff01a7dd 0a000003 0a000001 0000ff9a00640001";

const ANSWERED_BY_EXPIRY_TO_A: &str =
    "00010101 4500001c00000000ff01a7dd 0a000003 0a000001 0000ff9a00640001";

const OTHER_BY_EXPIRY_TO_A: &str =
    "00010101 4500001c00000000ff01a7dd 0a000003 0a000001 0800f79a00640001";

const ANSWER_BY_EXPIRY_OF_A: &str =
    "00011102 4500001c00000000ff01a7dd 0a000001 0a000003 0000ff9a00640001";

// A ping of A with a TTL that is one too small.
const ENDS_BETWEEN: &str = "00011101 4500001c00000000ff01a7dd 0a000001 0a000003 0800f79a00640001";

// A ping of A and one of C behind a router alert.
const ASKED_BY_ALERT: &str =
    "000010ff 000111ff 4500001c00000000ff01a7dd 0a000001 0a000003 0800f79a00640001";

const OTHER_BY_ALERT_TO_A: &str =
    "000010ff 000101fe 4500001c00000000ff01a7dd 0a000003 0a000001 0800f79a00640001";

// The switching point has no ping of its own, and answers none: it passes both ways what comes under its labels.
const PASSES_PINGS_BY_HEADER: [Step; 12] = [
    Step::Hears(A, WITH_WORD_OF_A),
    Step::Put(4, C, WITH_WORD_TO_C),
    Step::Hears(C, WITH_WORD_OF_C),
    Step::Put(5, A, WITH_WORD_TO_A),
    Step::Ping(0),
    Step::Idle,
    Step::Packet(ASKED_BY_HEADER),
    Step::Gives(1),
    Step::Sent(6, C, ASKED_BY_HEADER_TO_C),
    Step::Packet(ANSWERED_BY_HEADER),
    Step::Gives(1),
    Step::Sent(7, A, ANSWERED_BY_HEADER_TO_A),
];

// A TTL that ends at the switching point is dropped there, and so is a router alert.
const PASSES_PINGS_BY_EXPIRY: [Step; 12] = [
    Step::Hears(A, WITHOUT_WORD_OF_A),
    Step::Hears(C, WITHOUT_WORD_OF_C),
    Step::Put(5, A, WITHOUT_WORD_TO_A),
    Step::Packet(ASKED_BY_EXPIRY),
    Step::Sent(6, C, ASKED_BY_EXPIRY_TO_C),
    Step::Packet(ANSWERED_BY_EXPIRY),
    Step::Sent(7, A, ANSWERED_BY_EXPIRY_TO_A),
    Step::Packet(ENDS_BETWEEN),
    Step::Dropped(DropCause::Expired),
    Step::Packet(ASKED_BY_ALERT),
    Step::Dropped(DropCause::NoLabel),
    Step::Calls(8),
];

// The switching point has lost its session with C: it takes its label back from A, and passes no more pings on.
const PASSES_NONE_TO_A_LOST_SESSION: [Step; 6] = [
    Step::Hears(A, WITH_WORD_OF_A),
    Step::Hears(C, WITH_WORD_OF_C),
    Step::Lost(C),
    Step::Put(6, A, WITHDRAWAL_TO_A),
    Step::Packet(ASKED_BY_HEADER),
    Step::Dropped(DropCause::NoLabel),
];

// A at its end of the wire.
const ANSWERS_BY_HEADER: [Step; 8] = [
    Step::Put(2, B, WITH_WORD_OF_A),
    Step::Hears(B, WITH_WORD_TO_A),
    Step::Ping(0),
    Step::Sent(3, B, ASKED_BY_HEADER),
    Step::Packet(ANSWERED_BY_HEADER_TO_A),
    Step::Ponged(0, 1),
    Step::Packet(OTHER_BY_HEADER_TO_A),
    Step::Sent(4, B, ANSWER_BY_HEADER_OF_A),
];

const ANSWERS_BY_EXPIRY: [Step; 10] = [
    Step::Put(2, B, WITHOUT_WORD_OF_A),
    Step::Hears(B, WITHOUT_WORD_TO_A),
    Step::Ping(0),
    Step::Sent(3, B, ASKED_BY_EXPIRY),
    Step::Packet(ANSWERED_BY_EXPIRY_TO_A),
    Step::Ponged(0, 1),
    Step::Packet(OTHER_BY_EXPIRY_TO_A),
    Step::Sent(4, B, ANSWER_BY_EXPIRY_OF_A),
    Step::Packet(OTHER_BY_ALERT_TO_A),
    Step::Dropped(DropCause::NotOffered),
];

// A router alert passes no switching point, so that it is no channel here.
const ASKS_NOTHING_BY_ALERT: [Step; 5] = [
    Step::Hears(B, ALERT_ALONE_TO_A),
    Step::Ping(0),
    Step::Idle,
    Step::Packet(OTHER_BY_ALERT_TO_A),
    Step::Dropped(DropCause::NotOffered),
];

// The switching point has lost its session with C after the first ping. Its answer comes too late, and nothing is asked until the
// wire is told again; the next ping has the next number.
const ASKS_NOTHING_BEHIND_A_LOST_SESSION: [Step; 11] = [
    Step::Hears(B, WITH_WORD_TO_A),
    Step::Ping(0),
    Step::Hears(B, WITHDRAWAL_TO_A),
    Step::Put(4, B, RELEASE_OF_A),
    Step::Packet(ANSWERED_BY_HEADER_TO_A),
    Step::Dropped(DropCause::Down),
    Step::Ping(0),
    Step::Idle,
    Step::Hears(B, WITH_WORD_TO_A_AGAIN),
    Step::Ping(0),
    Step::Sent(5, B, ASKED_AGAIN),
];

// The session of A with the switching point comes up.
const UP_AT_A: [Step; 3] = [
    Step::Connected(B),
    Step::Hears(B, PROPOSAL_OF_B),
    Step::Hears(B, KEEP_ALIVE_OF_B),
];

// The switching point, whose sessions are up, does steps.
fn passes_on(rt: &impl Abort, alloc: Global, pieces: &[&str], steps: &[Step]) {
    plays(rt, alloc, pieces, B, 0, &UP, steps);
}

// The first edge of the wire, whose session is up, does steps.
fn plays_at_a(rt: &impl Abort, alloc: Global, pieces: &[&str], steps: &[Step]) {
    plays(rt, alloc, pieces, A, 0, &UP_AT_A, steps);
}

#[test]
fn passes_pings_on(rt: HostRuntime) {
    let alloc = rt.alloc();
    passes_on(&rt, alloc, PATH_BY_HEADER, &PASSES_PINGS_BY_HEADER);
    passes_on(&rt, alloc, PATH_BY_EXPIRY, &PASSES_PINGS_BY_EXPIRY);
    passes_on(&rt, alloc, PATH_BY_HEADER, &PASSES_NONE_TO_A_LOST_SESSION);
}

#[test]
fn pings_over_a_switching_point(rt: HostRuntime) {
    let alloc = rt.alloc();
    plays_at_a(&rt, alloc, PATH_BY_HEADER, &ANSWERS_BY_HEADER);
    plays_at_a(&rt, alloc, PATH_BY_EXPIRY, &ANSWERS_BY_EXPIRY);
    plays_at_a(&rt, alloc, PATH_BY_ALERT, &ASKS_NOTHING_BY_ALERT);
    plays_at_a(
        &rt,
        alloc,
        PATH_BY_HEADER,
        &ASKS_NOTHING_BEHIND_A_LOST_SESSION,
    );
}
