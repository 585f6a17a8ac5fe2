//! Sessions over the network come up and end. The wire is off at both edges, so that nothing but sessions is told.

use crate::network::steps::{Run, Step, plays_all};
use crate::scenarios::PAIR;

// The Initialization of edge 0, and that of edge 1; and the KeepAlive that each puts next (RFC 5036 sections 3.5.3 and 3.5.4).
const FIRST_OPENS: &str =
    "000100200a000001000002000016000000010500000e000100b4000010000a0000020000";

const SECOND_OPENS: &str =
    "000100200a000002000002000016000000010500000e000100b4000010000a0000010000";

const FIRST_LIVES: &str = "0001000e0a00000100000201000400000002";

const SECOND_LIVES: &str = "0001000e0a00000200000201000400000002";

const OFF: [Step; 2] = [Step::Wire(0, false), Step::Wire(1, false)];

const SETS_UP: [Step; 9] = [
    Step::Connect(0, 1),
    Step::Connect(1, 0),
    Step::Settle,
    Step::Kinds(">>>00s1>i>ss2>s23>3"),
    Step::Says(5, 1, SECOND_OPENS),
    Step::Says(10, 0, FIRST_OPENS),
    Step::Says(11, 0, FIRST_LIVES),
    Step::Says(14, 1, SECOND_LIVES),
    Step::Entries(19),
];

const LOSES: [Step; 10] = [
    Step::Connect(0, 1),
    Step::Deliver(1, 0, 36),
    Step::Deliver(0, 1, 40),
    Step::Lose(0, 1),
    Step::Deliver(1, 0, 18),
    Step::Settle,
    Step::Connect(0, 1),
    Step::Settle,
    Step::Kinds(">>>00s1>ss2>s2>c>i>3>c>00s1>ss2>s23>3"),
    Step::Entries(37),
];

const RESTARTS: [Step; 6] = [
    Step::Connect(0, 1),
    Step::Restart(1),
    Step::Lose(1, 0),
    Step::Settle,
    Step::Kinds(">>>00s1>>i>ss2>c"),
    Step::Entries(16),
];

const SETS_SESSIONS_UP_AND_ENDS_THEM: [Run; 3] = [
    (PAIR, &OFF, &SETS_UP),
    (PAIR, &OFF, &LOSES),
    (PAIR, &OFF, &RESTARTS),
];

#[test]
fn sets_sessions_up_and_ends_them(rt: HostRuntime) {
    plays_all(&rt, rt.alloc(), &SETS_SESSIONS_UP_AND_ENDS_THEM);
}
