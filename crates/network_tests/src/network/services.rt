//! Frames of one edge, and when a service is calm.

use crate::network::steps::{Run, Step, plays_all};
use crate::scenarios::{BRIDGE, PAIR};

// A broadcast of 14 octets, and one octet less.
const BROADCAST: &str = "ffffffffffffffffffffffffffff";

const SHORT: &str = "ffffffffffffffffffffffffff";

const BRIDGES: [Step; 11] = [
    Step::Frame(0, BROADCAST),
    Step::Frame(0, SHORT),
    Step::Off,
    Step::Off,
    Step::Frame(0, BROADCAST),
    Step::Tick,
    Step::Kinds(">nll>nd>>i>i>"),
    Step::UnderWay(0),
    Step::Passed(0, 1),
    Step::Passed(1, 1),
    Step::Entries(13),
];

// The service has no spoke, so that it is calm where it is quiet and full.
const IS_CALM_AND_IS_NOT: [Step; 24] = [
    Step::Quiet(true),
    Step::Full(false),
    Step::Calm(false),
    Step::Connect(0, 1),
    Step::Quiet(false),
    Step::Full(false),
    Step::Calm(false),
    Step::Settle,
    Step::Quiet(true),
    Step::Full(true),
    Step::Calm(true),
    Step::Status(0, 6),
    Step::Quiet(false),
    Step::Full(false),
    Step::Calm(false),
    Step::Settle,
    Step::Quiet(true),
    Step::Full(false),
    Step::Calm(false),
    Step::Lose(0, 1),
    Step::Quiet(false),
    Step::Full(false),
    Step::Calm(false),
    Step::Over(0),
];

const BRIDGES_FRAMES_AND_IS_CALM: [Run; 2] = [
    (BRIDGE, &[], &BRIDGES),
    (PAIR, &[], &IS_CALM_AND_IS_NOT),
];

#[test]
fn bridges_frames_and_is_calm(rt: HostRuntime) {
    plays_all(&rt, rt.alloc(), &BRIDGES_FRAMES_AND_IS_CALM);
}
