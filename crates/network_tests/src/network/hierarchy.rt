//! A hierarchy of four core edges in full mesh and of two spoke edges that hang on them: what floods over it in a calm service.

use crate::network::steps::{Run, Step, plays_all};
use crate::scenarios::{HIERARCHY, TWO_SPOKES};

/// A broadcast from the station 02:00:00:00:00:01, and a frame to it from the station 02:00:00:00:00:02.
const BROADCAST: &str = "ffffffffffff0200000000010800";

const ANSWER: &str = "0200000000010200000000020800";

// Every wire is set up.
const UP: [Step; 10] = [
    Step::Calm(false),
    Step::Connect(0, 1),
    Step::Connect(0, 2),
    Step::Connect(0, 3),
    Step::Connect(1, 2),
    Step::Connect(1, 3),
    Step::Connect(3, 2),
    Step::Connect(4, 0),
    Step::Connect(5, 2),
    Step::Settle,
];

// The window of the broadcast: the service is calm before it, then packets arrive and nothing else happens, and at the end
// none is under way.
const FLOODS: [Step; 6] = [
    Step::Calm(true),
    Step::Frame(4, BROADCAST),
    Step::Flow(5),
    Step::UnderWay(0),
    Step::Left(1, "/1/2/2/2//3"),
    Step::Over(0),
];

const ANSWERS: [Step; 7] = [
    Step::Frame(4, BROADCAST),
    Step::Flow(5),
    Step::Calm(true),
    Step::Frame(5, ANSWER),
    Step::Flow(3),
    Step::Left(2, "/////3/"),
    Step::Over(0),
];

const LOSES_A_SPOKE: [Step; 6] = [
    Step::Lose(4, 0),
    Step::Settle,
    Step::Quiet(true),
    Step::Full(true),
    Step::Calm(false),
    Step::Over(0),
];

// The service is calm before the move, and nothing is under way. A priority applies at the spoke edge alone, and where it is another
// one. The answer is flooded from where the station was forgotten, and finds it over the new spoke.
const MOVES: [Step; 19] = [
    Step::Connect(4, 1),
    Step::Settle,
    Step::Frame(4, BROADCAST),
    Step::Flow(5),
    Step::Left(1, "/1/2/2/2//3"),
    Step::UnderWay(0),
    Step::Calm(true),
    Step::Priority(0, 20),
    Step::Idle(true),
    Step::Priority(4, 10),
    Step::Idle(true),
    Step::Priority(4, 20),
    Step::Idle(false),
    Step::Settle,
    Step::Calm(true),
    Step::Frame(5, ANSWER),
    Step::Flow(5),
    Step::Left(2, "/2/2/1/2/3/"),
    Step::Over(0),
];

const FLOODS_OVER_A_HIERARCHY: [Run; 4] = [
    (HIERARCHY, &UP, &FLOODS),
    (HIERARCHY, &UP, &ANSWERS),
    (HIERARCHY, &UP, &LOSES_A_SPOKE),
    (TWO_SPOKES, &UP, &MOVES),
];

#[test]
fn floods_over_a_hierarchy(rt: HostRuntime) {
    plays_all(&rt, rt.alloc(), &FLOODS_OVER_A_HIERARCHY);
}
