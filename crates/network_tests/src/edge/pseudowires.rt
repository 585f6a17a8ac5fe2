//! An edge hears what its peer says of a pseudowire.

use crate::edge::proposals::{KEEP_ALIVE_OF_A, PROPOSAL_OF_A};
use crate::edge::steps::{Step, plays};
use crate::scenarios::{A, B, SITES, THREE_WIRES};
use net_base::DropCause;
use std::alloc::Global;
use std::process::Abort;

// What the edge with the larger address puts of its wire (RFC 8077 section 6), and the same of its peer, as one of group 7.
const MAPPING_OF_B: &str =
    "000100320a0000020000040000280000000301000010808005080000000000000064010405dc\
     0200000400000010896a000400000000";

const MAPPING_OF_A: &str =
    "000100320a0000010000040000280000000301000010808005080000000700000064010405dc\
     0200000400000010896a000400000000";

// The peer's one with PW ID 101, which no wire has.
const MAPPING_OF_NO_WIRE: &str =
    "000100320a0000010000040000280000000301000010808005080000000700000065010405dc\
     0200000400000010896a000400000000";

// The peer withdraws a group, and the edge releases it.
const WITHDRAW_7: &str = "0001001a0a00000100000402001000000004010000088080050000000007";

const RELEASE_7: &str = "0001001a0a00000200000403001000000004010000088080050000000007";

const WITHDRAW_8: &str = "0001001a0a00000100000402001000000004010000088080050000000008";

const RELEASE_8: &str = "0001001a0a00000200000403001000000004010000088080050000000008";

// The peer withdraws group 7 with a label, which none of its ends told, and a wire without one; the edge releases what it was told.
const WITHDRAW_7_WITH_99: &str =
    "000100220a0000010000 0402001800000004 01000008 8080050000000007 02000004 00000063";

const RELEASE_7_WITH_99: &str =
    "000100220a0000020000 0403001800000004 01000008 8080050000000007 02000004 00000063";

const WITHDRAW_WITHOUT_LABEL: &str =
    "0001001e0a0000010000 040200140000000b 0100000c 80800504 00000000 00000064";

const RELEASE_WITHOUT_LABEL: &str =
    "0001001e0a0000020000 0403001400000004 0100000c 80800504 00000000 00000064";

// The peer's mappings of the wires 101 of group 7 and 102 of group 0.
const MAPPING_OF_101: &str =
    "000100320a0000010000 0400002800000003 01000010 80800508 00000007 00000065 010405dc \
     02000004 00000011 896a0004 00000000";

const MAPPING_OF_102: &str =
    "000100320a0000010000 0400002800000003 01000010 80800508 00000000 00000066 010405dc \
     02000004 00000012 896a0004 00000000";

// A status of the wire 100 with data 0x21, which is not for a status; and one of group 7.
const STATUS_OF_OTHER_DATA: &str =
    "000100340a0000010000 0001002a0000000c 0300000a 00000021000000000000 896a0004 00000001 \
     0100000c 80800504 00000000 00000064";

const STATUS_OF_7: &str =
    "000100300a0000010000 000100260000000a 0300000a 00000028000000000000 896a0004 00000001 \
     01000008 8080050000000007";

// A Notification without a Status.
const NO_NOTIFICATION: &str = "0001000e0a0000010000 000100040000000c";

// A broadcast of the peer by each wire.
const FRAME_BY_100: &str = "000101ff 00000000 ffffffffffff 020000000001 0800";

const FRAME_BY_101: &str = "000111ff 00000000 ffffffffffff 020000000001 0800";

const FRAME_BY_102: &str = "000121ff 00000000 ffffffffffff 020000000001 0800";

// The edge releases the label of no wire; the peer releases another label than the edge's, and the edge's.
const RELEASE_OF_NO_WIRE: &str =
    "000100260a00000200000403001c000000040100000c8080050400000007000000650200000400000010";

const RELEASE_OF_ANOTHER: &str =
    "000100260a00000100000403001c000000030100000c8080050400000000000000640200000400000011";

const RELEASE_OF_OWN: &str =
    "000100260a00000100000403001c000000040100000c8080050400000000000000640200000400000010";

/// The session of the edge with the larger address comes up.
pub const UP: [Step; 3] = [
    Step::Connected(A),
    Step::Hears(A, PROPOSAL_OF_A),
    Step::Hears(A, KEEP_ALIVE_OF_A),
];

const RELEASES_A_GROUP: [Step; 10] = [
    Step::Put(2, A, MAPPING_OF_B),
    Step::Stitched(false),
    Step::Hears(A, MAPPING_OF_A),
    Step::Bound(16),
    Step::Stitched(true),
    Step::Hears(A, WITHDRAW_7),
    Step::Bound(0),
    Step::Stitched(false),
    Step::Put(3, A, RELEASE_7),
    Step::Calls(4),
];

const KEEPS_OTHER_GROUPS: [Step; 4] = [
    Step::Hears(A, MAPPING_OF_A),
    Step::Hears(A, WITHDRAW_8),
    Step::Bound(16),
    Step::Put(3, A, RELEASE_8),
];

const RELEASES_A_GROUP_WHATEVER_THE_LABEL: [Step; 5] = [
    Step::Hears(A, MAPPING_OF_A),
    Step::Hears(A, WITHDRAW_7_WITH_99),
    Step::Bound(0),
    Step::Put(3, A, RELEASE_7_WITH_99),
    Step::Calls(4),
];

const RELEASES_WITHOUT_A_LABEL: [Step; 5] = [
    Step::Hears(A, MAPPING_OF_A),
    Step::Hears(A, WITHDRAW_WITHOUT_LABEL),
    Step::Bound(0),
    Step::Put(3, A, RELEASE_WITHOUT_LABEL),
    Step::Calls(4),
];

// Two of three wires are of the group whose status is told.
const HEARS_THE_STATUS_OF_A_GROUP: [Step; 17] = [
    Step::Calls(5),
    Step::Hears(A, MAPPING_OF_A),
    Step::Hears(A, MAPPING_OF_101),
    Step::Hears(A, MAPPING_OF_102),
    Step::Hears(A, STATUS_OF_OTHER_DATA),
    Step::Gives(0),
    Step::Packet(FRAME_BY_100),
    Step::Gives(0),
    Step::Hears(A, STATUS_OF_7),
    Step::Gives(2),
    Step::Calls(5),
    Step::Packet(FRAME_BY_100),
    Step::Dropped(DropCause::Down),
    Step::Packet(FRAME_BY_101),
    Step::Dropped(DropCause::Down),
    Step::Packet(FRAME_BY_102),
    Step::Gives(0),
];

// No advice is given on a Notification, so that two edges do not advise each other for good.
const ADVISES_NOTHING_ON_A_NOTIFICATION: [Step; 4] = [
    Step::Hears(A, NO_NOTIFICATION),
    Step::Gives(0),
    Step::Calls(3),
    Step::Held(A, 0),
];

const RELEASES_WHAT_IT_DOES_NOT_KNOW: [Step; 3] = [
    Step::Hears(A, MAPPING_OF_NO_WIRE),
    Step::Put(3, A, RELEASE_OF_NO_WIRE),
    Step::Bound(0),
];

const ADVERTISES_AGAIN_ONCE_RENEWED: [Step; 9] = [
    Step::Hears(A, RELEASE_OF_ANOTHER),
    Step::Calls(3),
    Step::Hears(A, RELEASE_OF_OWN),
    Step::Ticks(1),
    Step::Calls(3),
    Step::Wire(0, false),
    Step::Wire(0, true),
    Step::Calls(4),
    Step::NextLabel(18),
];

const LOSES_ITS_ENDS: [Step; 3] = [Step::Gives(3), Step::Gone(A), Step::NextLabel(17)];

// The edge with the larger address, whose session is up, does steps; the call of its link with this number fails.
fn plays_up(rt: &impl Abort, alloc: Global, fails: u64, steps: &[Step]) {
    plays(rt, alloc, SITES, B, fails, &UP, steps);
}

#[test]
fn hears_of_a_pseudowire(rt: HostRuntime) {
    let alloc = rt.alloc();
    plays_up(&rt, alloc, 0, &RELEASES_A_GROUP);
    plays_up(&rt, alloc, 0, &KEEPS_OTHER_GROUPS);
    plays_up(&rt, alloc, 0, &RELEASES_A_GROUP_WHATEVER_THE_LABEL);
    plays_up(&rt, alloc, 0, &RELEASES_WITHOUT_A_LABEL);
    plays_up(&rt, alloc, 0, &ADVISES_NOTHING_ON_A_NOTIFICATION);
    plays_up(&rt, alloc, 0, &RELEASES_WHAT_IT_DOES_NOT_KNOW);
    plays_up(&rt, alloc, 0, &ADVERTISES_AGAIN_ONCE_RENEWED);
    plays_up(&rt, alloc, 3, &LOSES_ITS_ENDS);
    plays(
        &rt,
        alloc,
        THREE_WIRES,
        B,
        0,
        &UP,
        &HEARS_THE_STATUS_OF_A_GROUP,
    );
}
