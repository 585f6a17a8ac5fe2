//! A switching point whose link fails as it passes something on (RFC 6073).

use crate::edge::proposals::{KEEP_ALIVE_OF_A, KEEP_ALIVE_OF_C, PROPOSAL_OF_A, PROPOSAL_OF_C_TO_B};
use crate::edge::steps::{Step, plays};
use crate::edge::stitches::{
    MAPPING_OF_A, MAPPING_OF_C, PASSED_TO_A, PASSED_TO_C, RELEASE_OF_C, UP, WITHDRAWAL_TO_C,
};
use crate::scenarios::{A, B, C, PATH};
use net_base::DropCause;

// What A tells in its next session: label 17.
const NEXT_MAPPING_OF_A: &str =
    "000100320a0000010000 0400002800000003 01000010808005080000000000000064010405dc 0200000400000011 896a000400000000";

// What the switching point tells under labels 17 to 19: C in its next session, A in its next session, and C again.
const PASSED_TO_C_ANEW: &str =
    "000100480a0000020000 0400003e00000003 01000010808005080000000000000064010405dc 0200000400000011 896a000400000000 896d0012 010400000064 03040a000002 04040a000001";

const PASSED_TO_A_ANEW: &str =
    "000100480a0000020000 0400003e00000003 01000010808005080000000000000064010405dc 0200000400000012 896a000400000000 896d0012 010400000064 03040a000002 04040a000003";

const PASSED_TO_C_AGAIN: &str =
    "000100480a0000020000 0400003e00000005 01000010808005080000000000000064010405dc 0200000400000013 896a000400000000 896d0012 010400000064 03040a000002 04040a000001";

// A packet of A with label 17, which the switching point has told it, and as it goes on to C: under C's label 500, with a TTL that is one
// less.
const PACKET_OF_A: &str = "000111ff 00000000 ffffffffffff 020000000001 0800";

const PACKET_TO_C: &str = "001f41fe 00000000 ffffffffffff 020000000001 0800";

// The link does not take what is passed on to A: that session ends, what A told is held no more, and the label that C had of it is
// withdrawn. In its next session A is told at once what C has told.
const LOSES_THE_FIRST: [Step; 17] = [
    Step::Hears(A, MAPPING_OF_A),
    Step::Put(4, C, PASSED_TO_C),
    Step::Hears(C, MAPPING_OF_C),
    Step::Gone(A),
    Step::Gives(3),
    Step::Put(5, A, PASSED_TO_A),
    Step::Put(6, C, WITHDRAWAL_TO_C),
    Step::Calls(7),
    Step::Hears(C, RELEASE_OF_C),
    Step::Connected(A),
    Step::Hears(A, PROPOSAL_OF_A),
    Step::Hears(A, KEEP_ALIVE_OF_A),
    Step::Put(9, A, PASSED_TO_A_ANEW),
    Step::Stitched(false),
    Step::Hears(A, NEXT_MAPPING_OF_A),
    Step::Put(10, C, PASSED_TO_C_AGAIN),
    Step::Stitched(true),
];

// The link does not take what is passed on to C: that session ends, and nothing is told to A. In its next session C is told at once what A
// has told.
const LOSES_THE_LAST: [Step; 13] = [
    Step::Hears(A, MAPPING_OF_A),
    Step::Put(4, C, PASSED_TO_C),
    Step::Gone(C),
    Step::Gives(2),
    Step::Calls(5),
    Step::Connected(C),
    Step::Hears(C, PROPOSAL_OF_C_TO_B),
    Step::Hears(C, KEEP_ALIVE_OF_C),
    Step::Put(7, C, PASSED_TO_C_ANEW),
    Step::Stitched(false),
    Step::Hears(C, MAPPING_OF_C),
    Step::Put(8, A, PASSED_TO_A_ANEW),
    Step::Stitched(true),
];

// The link does not take a packet that is passed on, which is dropped; it takes the next one.
const LOSES_A_PACKET: [Step; 10] = [
    Step::Hears(A, MAPPING_OF_A),
    Step::Hears(C, MAPPING_OF_C),
    Step::Put(5, A, PASSED_TO_A),
    Step::Stitched(true),
    Step::Packet(PACKET_OF_A),
    Step::Dropped(DropCause::LinkFault),
    Step::Sent(6, C, PACKET_TO_C),
    Step::Packet(PACKET_OF_A),
    Step::Gives(1),
    Step::Sent(7, C, PACKET_TO_C),
];

#[test]
fn loses_what_its_link_does_not_take(rt: HostRuntime) {
    let alloc = rt.alloc();
    plays(&rt, alloc, PATH, B, 6, &UP, &LOSES_THE_FIRST);
    plays(&rt, alloc, PATH, B, 5, &UP, &LOSES_THE_LAST);
    plays(&rt, alloc, PATH, B, 7, &UP, &LOSES_A_PACKET);
}
