//! Labels are given again, and packets age. The first edge has one label left, 1048575.

use crate::network::steps::{Run, Step, plays_all};
use crate::scenarios::{LARGEST, LAST_LABEL, LAST_LABEL_AND_A_SHORT_SESSION, LAST_LABEL_OF_TWO};

const UP: [Step; 3] = [Step::Connect(0, 1), Step::Settle, Step::Mappings(0, 1, 1)];

// A number that is freed while the connection stands waits for the next one, however many ticks pass; then it rests for 64.
const WAITS_FOR_THE_NEXT_CONNECTION: [Step; 11] = [
    Step::Wire(0, false),
    Step::Settle,
    Step::Wire(0, true),
    Step::Ticks(64),
    Step::Mappings(0, 1, 1),
    Step::NextLabel(0, 1048576),
    Step::Reconnect(0, 1),
    Step::Maps(0, 1, 64, 2),
    Step::Settle,
    Step::Bound(17, 1048575),
    Step::NextLabel(0, 1048576),
];

// Ticks before the connection count for nothing.
const RESTS_FROM_THE_CONNECTION_ON: [Step; 6] = [
    Step::Lose(0, 1),
    Step::Settle,
    Step::Ticks(64),
    Step::Connect(0, 1),
    Step::Settle,
    Step::Maps(0, 1, 64, 2),
];

// A number that rests already does not begin anew with a later connection.
const RESTS_ON: [Step; 4] = [
    Step::Reconnect(0, 1),
    Step::Ticks(30),
    Step::Reconnect(0, 1),
    Step::Maps(0, 1, 34, 2),
];

// After a restart the numbers that the edge owned wait for their neighbours.
const WAITS_AFTER_A_RESTART: [Step; 7] = [
    Step::Restart(0),
    Step::Settle,
    Step::Ticks(64),
    Step::Connect(0, 1),
    Step::Settle,
    Step::Maps(0, 1, 64, 2),
    Step::NextLabel(0, 1048576),
];

// A connection with another neighbour begins no rest. Once the number is free, the first end in the order of wires that wants one has it,
// though it is of another neighbour.
const GOES_TO_THE_FIRST_WIRE: [Step; 12] = [
    Step::Lose(0, 1),
    Step::Settle,
    Step::Connect(0, 2),
    Step::Settle,
    Step::Ticks(64),
    Step::Mappings(0, 2, 0),
    Step::Mappings(0, 1, 1),
    Step::Connect(0, 1),
    Step::Settle,
    Step::Maps(0, 2, 64, 1),
    Step::Mappings(0, 1, 1),
    Step::NextLabel(0, 1048576),
];

// The end that would have the number is lost at the tick that makes it free, since its session expires then: the next one has it.
const GOES_TO_ONE_WHOSE_SESSION_STANDS: [Step; 5] = [
    Step::Reconnect(0, 1),
    Step::Connect(0, 2),
    Step::Settle,
    Step::Maps(0, 1, 64, 2),
    Step::Mappings(0, 2, 0),
];

const LABELS_ARE_GIVEN_AGAIN: [Run; 6] = [
    (LAST_LABEL, &UP, &WAITS_FOR_THE_NEXT_CONNECTION),
    (LAST_LABEL, &UP, &RESTS_FROM_THE_CONNECTION_ON),
    (LAST_LABEL, &UP, &RESTS_ON),
    (LAST_LABEL, &UP, &WAITS_AFTER_A_RESTART),
    (LAST_LABEL_OF_TWO, &UP, &GOES_TO_THE_FIRST_WIRE),
    (
        LAST_LABEL_AND_A_SHORT_SESSION,
        &UP,
        &GOES_TO_ONE_WHOSE_SESSION_STANDS,
    ),
];

#[test]
fn labels_are_given_again(rt: HostRuntime) {
    plays_all(&rt, rt.alloc(), &LABELS_ARE_GIVEN_AGAIN);
}

const SENDS: [Step; 4] = [
    Step::Connect(0, 1),
    Step::Settle,
    Step::Frame(0, "ffffffffffff0200000000010800"),
    Step::UnderWay(1),
];

// A packet is lost at the tick that makes it 64 ticks old.
const AGES: [Step; 8] = [
    Step::Ticks(63),
    Step::UnderWay(1),
    Step::Tick,
    Step::UnderWay(0),
    Step::Ends(">>a"),
    Step::Arrive(1),
    Step::Idle(true),
    Step::Left(1, "//////"),
];

// A copy is as old as the packet that it repeats; both are told by their numbers.
const COPIES_AGE_ALIKE: [Step; 7] = [
    Step::Ticks(40),
    Step::Again(1),
    Step::Ticks(23),
    Step::UnderWay(2),
    Step::Tick,
    Step::UnderWay(0),
    Step::Ends(">>aa"),
];

// One that was sent a tick later lives a tick longer.
const AGES_ONE_BY_ONE: [Step; 9] = [
    Step::Tick,
    Step::Frame(0, "ffffffffffff0200000000010800"),
    Step::Ticks(62),
    Step::UnderWay(2),
    Step::Tick,
    Step::Ends(">>a"),
    Step::UnderWay(1),
    Step::Tick,
    Step::Ends(">a>a"),
];

const PACKETS_AGE: [Run; 3] = [
    (LARGEST, &SENDS, &AGES),
    (LARGEST, &SENDS, &COPIES_AGE_ALIKE),
    (LARGEST, &SENDS, &AGES_ONE_BY_ONE),
];

#[test]
fn packets_age(rt: HostRuntime) {
    plays_all(&rt, rt.alloc(), &PACKETS_AGE);
}
