//! Wires over switching points: when their service is calm, and how many segments a broadcast passes over them.

use crate::network::steps::{Run, Step, plays_all};
use crate::scenarios::CHAINS;

/// A broadcast of 14 octets.
const BROADCAST: &str = "ffffffffffff0200000000010800";

// Every wire is set up.
const UP: [Step; 10] = [
    Step::Calm(false),
    Step::Connect(0, 6),
    Step::Connect(1, 5),
    Step::Connect(1, 6),
    Step::Connect(2, 4),
    Step::Connect(3, 5),
    Step::Connect(4, 5),
    Step::Connect(4, 6),
    Step::Connect(5, 6),
    Step::Settle,
];

// Four segments of a spoke, four of the mesh wire and four of the other spoke.
const PASSES_TWELVE: [Step; 7] = [
    Step::Quiet(true),
    Step::Calm(true),
    Step::Frame(2, BROADCAST),
    Step::Flow(12),
    Step::UnderWay(0),
    Step::Left(1, "/4/8//c//"),
    Step::Over(0),
];

// Between two switching points of each wire the connection is lost, and stands again.
const LOSES_ITS_MIDDLE: [Step; 16] = [
    Step::Calm(true),
    Step::Lose(4, 5),
    Step::Quiet(false),
    Step::Settle,
    Step::Quiet(true),
    Step::Full(false),
    Step::Calm(false),
    Step::Frame(2, BROADCAST),
    Step::UnderWay(0),
    Step::Connect(4, 5),
    Step::Calm(false),
    Step::Settle,
    Step::Calm(true),
    Step::Frame(3, BROADCAST),
    Step::Flow(12),
    Step::Left(2, "/8/4/c///"),
];

// A failure at an end of the mesh wire is passed on to its other end, and the service is calm no longer.
const PASSES_A_FAILURE_ON: [Step; 10] = [
    Step::Status(0, 6),
    Step::Quiet(false),
    Step::Settle,
    Step::Quiet(true),
    Step::Full(false),
    Step::Status(0, 0),
    Step::Settle,
    Step::Quiet(true),
    Step::Full(true),
    Step::Calm(true),
];

// A switching point of all three wires restarts while a packet is on its way to it.
const RESTARTS: [Step; 17] = [
    Step::Frame(0, BROADCAST),
    Step::UnderWay(2),
    Step::Restart(6),
    Step::Flow(2),
    Step::Left(1, "//////"),
    Step::Settle,
    Step::Quiet(true),
    Step::Full(false),
    Step::Connect(0, 6),
    Step::Connect(1, 6),
    Step::Connect(4, 6),
    Step::Connect(5, 6),
    Step::Settle,
    Step::Calm(true),
    Step::Frame(0, BROADCAST),
    Step::Flow(12),
    Step::Left(2, "//4/4/8//"),
];

const FLOODS_OVER_SWITCHING_POINTS: [Run; 4] = [
    (CHAINS, &UP, &PASSES_TWELVE),
    (CHAINS, &UP, &LOSES_ITS_MIDDLE),
    (CHAINS, &UP, &PASSES_A_FAILURE_ON),
    (CHAINS, &UP, &RESTARTS),
];

#[test]
fn floods_over_switching_points(rt: HostRuntime) {
    plays_all(&rt, rt.alloc(), &FLOODS_OVER_SWITCHING_POINTS);
}
