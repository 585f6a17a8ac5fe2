//! A core edge hears a MAC withdraw, and passes it on (RFC 4762 section 6.2). All octets were worked out by hand.

use crate::edge::proposals::{
    KEEP_ALIVE_OF_B, KEEP_ALIVE_OF_C, KEEP_ALIVE_OF_X, PROPOSAL_OF_B, PROPOSAL_OF_C, PROPOSAL_OF_X,
};
use crate::edge::steps::{Step, plays};
use crate::scenarios::{A, B, C, HUB, X};
use std::alloc::Global;
use std::process::Abort;

/// What B tells of its wire: label 16, status 0.
const MAPPING_OF_B: &str =
    "000100320a0000020000040000280000000301000010808005080000000000000064010405dc0200000400000010896a000400000000";

/// A packet from B with a broadcast of the station 02:00:00:00:00:01.
const BROADCAST_OF_B: &str = "000101ff 00000000 ffffffffffff 020000000001 0800";

/// A MAC withdraw of 31 stations, from X.
const WITHDRAW_31_OF_X: &str =
    "000100dc0a0000040000030100d2000000030100000c8080050400000000000000c9840400ba *31";

/// A MAC withdraw of the station 02:00:00:00:00:01, and one of all, from X; and one of all from B.
const WITHDRAW_ONE_OF_X: &str =
    "000100280a00000400000301001e000000030100000c8080050400000000000000c984040006 020000000001";

const WITHDRAW_ALL_OF_X: &str =
    "000100220a000004000003010018000000040100000c8080050400000000000000c984040000";

const WITHDRAW_ALL_OF_B: &str =
    "000100220a000002000003010018000000040100000c80800504000000000000006484040000";

/// The first piece, of 30 stations, and the second, of one, to B and to C.
const FIRST_TO_B: &str =
    "000100d60a0000010000030100cc000000040100000c808005040000000000000064840400b4 *30";

const SECOND_TO_B: &str =
    "000100280a00000100000301001e000000050100000c80800504000000000000006484040006 02000000001f";

const FIRST_TO_C: &str =
    "000100d60a0000010000030100cc000000040100000c808005040000000000000065840400b4 *30";

const SECOND_TO_C: &str =
    "000100280a00000100000301001e000000050100000c80800504000000000000006584040006 02000000001f";

// The three sessions of the core edge come up; its end of each wire advertises.
const UP: [Step; 10] = [
    Step::Connected(B),
    Step::Hears(B, PROPOSAL_OF_B),
    Step::Hears(B, KEEP_ALIVE_OF_B),
    Step::Connected(C),
    Step::Hears(C, PROPOSAL_OF_C),
    Step::Hears(C, KEEP_ALIVE_OF_C),
    Step::Connected(X),
    Step::Hears(X, PROPOSAL_OF_X),
    Step::Hears(X, KEEP_ALIVE_OF_X),
    Step::Calls(9),
];

const PASSES_ON: [Step; 7] = [
    Step::Hears(X, WITHDRAW_31_OF_X),
    Step::Gives(4),
    Step::Calls(13),
    Step::Put(9, B, FIRST_TO_B),
    Step::Put(10, B, SECOND_TO_B),
    Step::Put(11, C, FIRST_TO_C),
    Step::Put(12, C, SECOND_TO_C),
];

const FORGETS: [Step; 9] = [
    Step::Hears(B, MAPPING_OF_B),
    Step::Packet(BROADCAST_OF_B),
    Step::Learned(1),
    // The station is behind B, not behind X; and what B says of all is not of those behind B.
    Step::Hears(X, WITHDRAW_ONE_OF_X),
    Step::Learned(1),
    Step::Hears(B, WITHDRAW_ALL_OF_B),
    Step::Learned(1),
    Step::Hears(X, WITHDRAW_ALL_OF_X),
    Step::Learned(0),
];

// The core edge, whose sessions are up, does steps.
fn plays_up(rt: &impl Abort, alloc: Global, steps: &[Step]) {
    plays(rt, alloc, HUB, A, 0, &UP, steps);
}

#[test]
fn hears_a_withdraw_and_passes_it_on(rt: HostRuntime) {
    plays_up(&rt, rt.alloc(), &PASSES_ON);
    plays_up(&rt, rt.alloc(), &FORGETS);
}
