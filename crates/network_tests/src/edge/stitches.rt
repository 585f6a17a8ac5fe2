//! A switching point between two edges of a wire passes on what each of them tells of it (RFC 6073 sections 4, 7 and 10). All octets
//! were worked out by hand.

use crate::edge::proposals::{KEEP_ALIVE_OF_A, KEEP_ALIVE_OF_C, PROPOSAL_OF_A, PROPOSAL_OF_C_TO_B};
use crate::edge::steps::{Step, plays};
use crate::scenarios::{A, B, C, PATH};
use net_base::DropCause;
use std::alloc::Global;
use std::process::Abort;

/// What the two ends tell of the wire: A with label 16, and C with label 500, each with status 0.
pub const MAPPING_OF_A: &str =
    "000100320a0000010000 0400002800000003 01000010808005080000000000000064010405dc 0200000400000010 896a000400000000";

pub const MAPPING_OF_C: &str =
    "000100320a0000030000 0400002800000003 01000010808005080000000000000064010405dc 02000004000001f4 896a000400000000";

// The same of A behind the point of this edge, which came from C; with an MTU of 1400; and without a status.
const MAPPING_THAT_CAME_BACK: &str =
    "000100480a0000010000 0400003e00000003 01000010808005080000000000000064010405dc 0200000400000010 896a000400000000 896d0012 010400000064 03040a000002 04040a000003";

const MAPPING_OF_A_WITH_MTU_1400: &str =
    "000100320a0000010000 0400002800000004 0100001080800508000000000000006401040578 0200000400000010 896a000400000000";

const MAPPING_OF_A_WITHOUT_STATUS: &str =
    "0001002a0a0000010000 0400002000000003 01000010808005080000000000000064010405dc 0200000400000010";

// The edge releases what came back.
const RELEASE_TO_A: &str =
    "000100260a0000020000 0403001c00000003 0100000c8080050400000000000000640200000400000010";

/// What the edge tells C of A, and A of C, behind its own point: labels 16 and 17.
pub const PASSED_TO_C: &str =
    "000100480a0000020000 0400003e00000003 01000010808005080000000000000064010405dc 0200000400000010 896a000400000000 896d0012 010400000064 03040a000002 04040a000001";

pub const PASSED_TO_A: &str =
    "000100480a0000020000 0400003e00000003 01000010808005080000000000000064010405dc 0200000400000011 896a000400000000 896d0012 010400000064 03040a000002 04040a000003";

// The same to C without a status.
const PASSED_TO_C_WITHOUT_STATUS: &str =
    "000100400a0000020000 0400003600000003 01000010808005080000000000000064010405dc 0200000400000010 896d0012 010400000064 03040a000002 04040a000001";

// A tells that its circuit does not forward, and the edge tells C.
const STATUS_OF_A: &str =
    "000100340a0000010000 0001002a00000004 0300000a00000028000000000000 896a000400000001 0100000c808005040000000000000064";

const STATUS_TO_C: &str =
    "000100340a0000020000 0001002a00000004 0300000a00000028000000000000 896a000400000001 0100000c808005040000000000000064";

// The edge tells C that A's circuit forwards, once A has told a mapping without a status.
const NO_STATUS_TO_C: &str =
    "000100340a0000020000 0001002a00000005 0300000a00000028000000000000 896a000400000000 0100000c808005040000000000000064";

// A and C release what the edge has told them, and it tells them anew under labels 18 and 19.
const RELEASE_OF_A: &str =
    "000100260a0000010000 0403001c00000004 0100000c8080050400000000000000640200000400000011";

const ANEW_TO_A: &str =
    "000100480a0000020000 0400003e00000004 01000010808005080000000000000064010405dc 0200000400000012 896a000400000000 896d0012 010400000064 03040a000002 04040a000003";

const ANEW_TO_C: &str =
    "000100480a0000020000 0400003e00000004 01000010808005080000000000000064010405dc 0200000400000013 896a000400000000 896d0012 010400000064 03040a000002 04040a000001";

/// The edge withdraws label 16 from C, which releases it, and advertises label 17 with the new MTU.
pub const WITHDRAWAL_TO_C: &str =
    "000100260a0000020000 0402001c00000004 0100000c8080050400000000000000640200000400000010";

pub const RELEASE_OF_C: &str =
    "000100260a0000030000 0403001c00000003 0100000c8080050400000000000000640200000400000010";

const PASSED_TO_C_WITH_MTU_1400: &str =
    "000100480a0000020000 0400003e00000005 0100001080800508000000000000006401040578 0200000400000011 896a000400000000 896d0012 010400000064 03040a000002 04040a000001";

// C withdraws its label 500.
const WITHDRAWAL_OF_C: &str =
    "000100260a0000030000 0402001c00000004 0100000c80800504000000000000006402000004000001f4";

// A withdraws 31 stations, and the edge tells C of 30, and then of one.
const WITHDRAW_31_OF_A: &str =
    "000100dc0a0000010000 030100d200000004 0100000c808005040000000000000064 840400ba *31";

const FIRST_TO_C: &str =
    "000100d60a0000020000 030100cc00000004 0100000c808005040000000000000064 840400b4 *30";

const SECOND_TO_C: &str =
    "000100280a0000020000 0301001e00000005 0100000c808005040000000000000064 84040006 02000000001f";

// Packets from A under label 16, with the traffic class 7, and as they go on to C; and from C under label 17.
const PACKET_OF_A: &str = "00010fff 00000000 ffffffffffff 020000000001 0800";

const PACKET_TO_C: &str = "001f4ffe 00000000 ffffffffffff 020000000001 0800";

const PACKET_OF_C: &str = "00011b02 00000000 ffffffffffff 020000000002 0800";

const PACKET_TO_A: &str = "00010b01 00000000 ffffffffffff 020000000002 0800";

const LAST_PACKET_OF_A: &str = "00010f01 00000000 ffffffffffff 020000000001 0800";

/// Both sessions of the edge come up, and nothing is told of the wire.
pub const UP: [Step; 7] = [
    Step::Connected(A),
    Step::Hears(A, PROPOSAL_OF_A),
    Step::Hears(A, KEEP_ALIVE_OF_A),
    Step::Connected(C),
    Step::Hears(C, PROPOSAL_OF_C_TO_B),
    Step::Hears(C, KEEP_ALIVE_OF_C),
    Step::Calls(4),
];

const TAKES_NO_POINT_OF_ITS_OWN: [Step; 4] = [
    Step::Hears(A, MAPPING_THAT_CAME_BACK),
    Step::Bound(0),
    Step::Put(4, A, RELEASE_TO_A),
    Step::Calls(5),
];

// What was bound before goes, so that C is told no longer.
const LETS_GO_WHAT_CAME_BACK: [Step; 7] = [
    Step::Hears(A, MAPPING_OF_A),
    Step::Bound(16),
    Step::Hears(A, MAPPING_THAT_CAME_BACK),
    Step::Bound(0),
    Step::Put(5, A, RELEASE_TO_A),
    Step::Put(6, C, WITHDRAWAL_TO_C),
    Step::Calls(7),
];

const PASSES_MAPPINGS_ON: [Step; 8] = [
    Step::Hears(A, MAPPING_OF_A),
    Step::Bound(16),
    Step::Put(4, C, PASSED_TO_C),
    Step::Calls(5),
    Step::Stitched(false),
    Step::Hears(C, MAPPING_OF_C),
    Step::Put(5, A, PASSED_TO_A),
    Step::Stitched(true),
];

const PASSES_A_STATUS_ON: [Step; 4] = [
    Step::Hears(A, MAPPING_OF_A),
    Step::Hears(A, STATUS_OF_A),
    Step::Put(5, C, STATUS_TO_C),
    Step::Calls(6),
];

const PASSES_NO_STATUS_ON: [Step; 4] = [
    Step::Hears(A, MAPPING_OF_A_WITHOUT_STATUS),
    Step::Put(4, C, PASSED_TO_C_WITHOUT_STATUS),
    Step::Hears(A, STATUS_OF_A),
    Step::Calls(5),
];

// What C was told has a status, so it is told one still: of a mapping without a status that is 0.
const TELLS_0_FOR_NO_STATUS: [Step; 6] = [
    Step::Hears(A, MAPPING_OF_A),
    Step::Hears(A, STATUS_OF_A),
    Step::Put(5, C, STATUS_TO_C),
    Step::Hears(A, MAPPING_OF_A_WITHOUT_STATUS),
    Step::Put(6, C, NO_STATUS_TO_C),
    Step::Calls(7),
];

// Neither end advertises again while it counts as declined, and both do once the wire was off.
const ADVERTISES_ON_BOTH_SIDES_ONCE_RENEWED: [Step; 12] = [
    Step::Hears(A, MAPPING_OF_A),
    Step::Hears(C, MAPPING_OF_C),
    Step::Hears(C, RELEASE_OF_C),
    Step::Hears(A, RELEASE_OF_A),
    Step::Ticks(1),
    Step::Calls(6),
    Step::Wire(0, false),
    Step::Calls(6),
    Step::Wire(0, true),
    Step::Put(6, A, ANEW_TO_A),
    Step::Put(7, C, ANEW_TO_C),
    Step::Calls(8),
];

const PASSES_AN_MTU_ON: [Step; 7] = [
    Step::Hears(A, MAPPING_OF_A),
    Step::Hears(A, MAPPING_OF_A_WITH_MTU_1400),
    Step::Put(5, C, WITHDRAWAL_TO_C),
    Step::Calls(6),
    Step::Hears(C, RELEASE_OF_C),
    Step::Put(6, C, PASSED_TO_C_WITH_MTU_1400),
    Step::Calls(7),
];

const PASSES_ADDRESSES_ON: [Step; 5] = [
    Step::Hears(A, MAPPING_OF_A),
    Step::Hears(A, WITHDRAW_31_OF_A),
    Step::Put(5, C, FIRST_TO_C),
    Step::Put(6, C, SECOND_TO_C),
    Step::Calls(7),
];

// The label that it tells A is 16 where C is the first to tell of the wire.
const SWAPS_LABELS: [Step; 13] = [
    Step::Hears(C, MAPPING_OF_C),
    Step::Hears(A, MAPPING_OF_A),
    Step::Calls(6),
    Step::Packet(PACKET_OF_A),
    Step::Gives(1),
    Step::Sent(6, C, PACKET_TO_C),
    Step::Packet(PACKET_OF_C),
    Step::Sent(7, A, PACKET_TO_A),
    Step::Packet(LAST_PACKET_OF_A),
    Step::Dropped(DropCause::Expired),
    Step::Hears(C, WITHDRAWAL_OF_C),
    Step::Packet(PACKET_OF_A),
    Step::Dropped(DropCause::NoLabel),
];

// The switching point, whose sessions are up, does steps.
fn plays_up(rt: &impl Abort, alloc: Global, steps: &[Step]) {
    plays(rt, alloc, PATH, B, 0, &UP, steps);
}

#[test]
fn refuses_its_own_point(rt: HostRuntime) {
    plays_up(&rt, rt.alloc(), &TAKES_NO_POINT_OF_ITS_OWN);
    plays_up(&rt, rt.alloc(), &LETS_GO_WHAT_CAME_BACK);
}

#[test]
fn passes_on_what_it_is_told(rt: HostRuntime) {
    plays_up(&rt, rt.alloc(), &PASSES_MAPPINGS_ON);
    plays_up(&rt, rt.alloc(), &PASSES_A_STATUS_ON);
    plays_up(&rt, rt.alloc(), &PASSES_NO_STATUS_ON);
    plays_up(&rt, rt.alloc(), &TELLS_0_FOR_NO_STATUS);
    plays_up(&rt, rt.alloc(), &ADVERTISES_ON_BOTH_SIDES_ONCE_RENEWED);
    plays_up(&rt, rt.alloc(), &PASSES_AN_MTU_ON);
}

#[test]
fn passes_on_addresses_and_packets(rt: HostRuntime) {
    plays_up(&rt, rt.alloc(), &PASSES_ADDRESSES_ON);
    plays_up(&rt, rt.alloc(), &SWAPS_LABELS);
}
