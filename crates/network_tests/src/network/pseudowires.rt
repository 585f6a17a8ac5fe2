//! A pseudowire over the network comes up and ends.

use crate::network::steps::{Run, Step, plays_all};
use crate::scenarios::{LARGEST, PAIR};

// The Label Mapping of edge 0, and that of edge 1: each offers PW ID 100 under label 16, with control word, MTU 1500 and
// status 0 (RFC 8077 sections 6 and 6.3.3).
const FIRST_MAPS: &str =
    "000100320a0000010000040000280000000301000010808005080000000000000064010405dc0200000400000010896a000400000000";

const SECOND_MAPS: &str =
    "000100320a0000020000040000280000000301000010808005080000000000000064010405dc0200000400000010896a000400000000";

const UP: [Step; 2] = [Step::Connect(0, 1), Step::Settle];

const IS_UP: [Step; 6] = [
    Step::Kinds(">00s1>ss2>s23sw>3swu>u"),
    Step::Says(13, 1, SECOND_MAPS),
    Step::Says(17, 0, FIRST_MAPS),
    Step::Bound(16, 16),
    Step::NextLabel(0, 17),
    Step::Entries(22),
];

const WITHDRAWS: [Step; 8] = [
    Step::Wire(1, false),
    Step::Wire(1, false),
    Step::Settle,
    Step::Wire(1, true),
    Step::Settle,
    Step::Kinds(">00s1>ss2>s23sw>3swu>u>sw>i>sw>>su>u"),
    Step::Bound(17, 16),
    Step::Entries(36),
];

const RESTARTS: [Step; 6] = [
    Step::Restart(1),
    Step::Settle,
    Step::Connect(0, 1),
    Step::Settle,
    Step::Bound(17, 17),
    Step::Over(22),
];

// The mapping of edge 1 is cut within its last octets.
const CUT: [Step; 7] = [
    Step::Connect(0, 1),
    Step::Deliver(1, 0, 36),
    Step::Deliver(0, 1, 54),
    Step::Deliver(1, 0, 18),
    Step::Deliver(1, 0, 44),
    Step::Lose(0, 1),
    Step::Bound(0, 0),
];

const COMES_UP_ANEW: [Step; 5] = [
    Step::Settle,
    Step::Connect(0, 1),
    Step::Settle,
    Step::Bound(17, 17),
    Step::Over(22),
];

// A packet under a label that its edge has withdrawn leaves nowhere.
const OUTLIVES_ITS_LABEL: [Step; 11] = [
    Step::Frame(0, "ffffffffffff0200000000010800"),
    Step::UnderWay(1),
    Step::Wire(1, false),
    Step::Settle,
    Step::Wire(1, true),
    Step::Settle,
    Step::Bound(17, 16),
    Step::UnderWay(1),
    Step::Flow(1),
    Step::UnderWay(0),
    Step::Left(1, "//////"),
];

const FAILS: [Step; 6] = [
    Step::Status(0, 6),
    Step::Status(0, 6),
    Step::Settle,
    Step::Kinds(">00s1>ss2>s23sw>3swu>u>sw>i>w"),
    Step::Bound(16, 16),
    Step::Entries(29),
];

const SETS_PSEUDOWIRES_UP_AND_ENDS_THEM: [Run; 6] = [
    (PAIR, &UP, &IS_UP),
    (PAIR, &UP, &WITHDRAWS),
    (LARGEST, &UP, &OUTLIVES_ITS_LABEL),
    (PAIR, &UP, &RESTARTS),
    (PAIR, &CUT, &COMES_UP_ANEW),
    (PAIR, &UP, &FAILS),
];

#[test]
fn sets_pseudowires_up_and_ends_them(rt: HostRuntime) {
    plays_all(&rt, rt.alloc(), &SETS_PSEUDOWIRES_UP_AND_ENDS_THEM);
}
