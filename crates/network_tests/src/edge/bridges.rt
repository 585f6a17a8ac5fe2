//! One edge without wires bridges frames between its circuits.

use crate::edge::side::{Side, side_of, take};
use crate::edge::steps::{Step, play, plays};
use crate::scenarios::BRIDGES;
use edge_model::Input;
use net_base::{CircuitId, DropCause, EdgeId, StateName};
use std::alloc::Global;
use std::process::Abort;

/// The edge, and its neighbour.
const E: EdgeId = EdgeId(0);

const F: EdgeId = EdgeId(1);

/// A frame from station 1 to all, and one from station 2 to station 1; each also with VLAN ID 7.
const BROADCAST: &str = "ffffffffffff 020000000001 0800";

const TAGGED_BROADCAST: &str = "ffffffffffff 020000000001 8100 0007 0800";

const ANSWER: &str = "020000000001 020000000002 0800";

const TAGGED_ANSWER: &str = "020000000001 020000000002 8100 0007 0800";

const FLOODS_AND_LEARNS: [Step; 11] = [
    Step::Frame(0, BROADCAST),
    Step::Gives(2),
    Step::Left(0, 1, BROADCAST),
    Step::Left(1, 2, TAGGED_BROADCAST),
    Step::Learned(1),
    Step::Frame(2, TAGGED_ANSWER),
    Step::Gives(1),
    Step::Left(0, 0, ANSWER),
    Step::Learned(2),
    Step::Frame(2, ANSWER),
    Step::Dropped(DropCause::NoTag),
];

const TURNS_OFF: [Step; 16] = [
    Step::Frame(0, BROADCAST),
    Step::Gives(2),
    Step::Circuit(0, false),
    Step::Gives(0),
    Step::Learned(0),
    Step::Circuit(0, false),
    Step::Idle,
    Step::Frame(0, BROADCAST),
    Step::Idle,
    Step::Frame(1, ANSWER),
    Step::Gives(1),
    Step::Left(0, 2, TAGGED_ANSWER),
    Step::Circuit(0, true),
    Step::Gives(0),
    Step::Frame(1, ANSWER),
    Step::Gives(2),
];

const FORGETS: [Step; 11] = [
    Step::Frame(0, BROADCAST),
    Step::Gives(2),
    Step::Ticks(1),
    Step::Gives(0),
    Step::Learned(1),
    Step::Ticks(1),
    Step::Gives(0),
    Step::Learned(0),
    Step::Passed(2),
    Step::Restart,
    Step::Passed(2),
];

// Labels 1, 15 and 16, the bottom bit, and a TTL (RFC 3032 section 2.1).
const DROPS: [Step; 18] = [
    Step::Packet("000101"),
    Step::Dropped(DropCause::Short),
    Step::Packet("00010100"),
    Step::Dropped(DropCause::Ttl),
    Step::Packet("0000f001"),
    Step::Dropped(DropCause::NoLabel),
    Step::Packet("00010001"),
    Step::Dropped(DropCause::NotBottom),
    Step::Packet("000101ff"),
    Step::Dropped(DropCause::NoLabel),
    Step::Packet("00001001"),
    Step::Dropped(DropCause::Short),
    Step::Packet("00001001 00010100"),
    Step::Dropped(DropCause::Ttl),
    Step::Packet("00001001 00010001"),
    Step::Dropped(DropCause::NotBottom),
    Step::Packet("00001001 00010101"),
    Step::Dropped(DropCause::NoLabel),
];

// Circuits of the neighbour, a circuit of no plan, and wires and connections where no wire is.
const LEAVES: [Step; 20] = [
    Step::Frame(3, BROADCAST),
    Step::Idle,
    Step::Frame(5, BROADCAST),
    Step::Idle,
    Step::Circuit(4, false),
    Step::Idle,
    Step::Connected(F),
    Step::Idle,
    Step::Hears(F, BROADCAST),
    Step::Idle,
    Step::Lost(F),
    Step::Idle,
    Step::Wire(0, false),
    Step::Idle,
    Step::Priority(0, 1),
    Step::Idle,
    Step::Ping(0),
    Step::Idle,
    Step::Session(F, StateName::NonExistent),
    Step::Held(F, 0),
];

const BRIDGES_ITS_SERVICES: [Step; 4] = [
    Step::Bridged(0, true),
    Step::Bridged(1, false),
    Step::Bridged(2, false),
    Step::Stopped(false),
];

// The edge does steps.
fn bridges(rt: &impl Abort, alloc: Global, steps: &[Step]) {
    plays(rt, alloc, BRIDGES, E, 0, &[], steps);
}

#[test]
fn bridges_frames(rt: HostRuntime) {
    let alloc = rt.alloc();
    bridges(&rt, alloc, &FLOODS_AND_LEARNS);
    bridges(&rt, alloc, &TURNS_OFF);
    bridges(&rt, alloc, &FORGETS);
    bridges(&rt, alloc, &BRIDGES_ITS_SERVICES);
}

#[test]
fn takes_nothing_else(rt: HostRuntime) {
    bridges(&rt, rt.alloc(), &DROPS);
    bridges(&rt, rt.alloc(), &LEAVES);
}

// Of 4,097 stations, from 0 on, the last one that is learned and the one that is not, each spoken to by a further station.
const TO_THE_LAST: &str = "020000000fff 020000010000 0800";

const TO_ONE_MORE: &str = "020000001000 020000010000 0800";

const IS_FULL: [Step; 7] = [
    Step::Learned(4096),
    Step::Frame(1, TO_THE_LAST),
    Step::Gives(1),
    Step::Left(0, 0, TO_THE_LAST),
    Step::Frame(1, TO_ONE_MORE),
    Step::Gives(2),
    Step::Learned(4096),
];

// A frame to all comes by circuit 0 from the station of this number.
fn speaks(rt: &impl Abort, alloc: Global, side: &mut Side, number: u16) {
    let [high, low] = number.to_be_bytes();
    let bytes = [255, 255, 255, 255, 255, 255, 2, 0, 0, 0, high, low, 8, 0];
    let input = Input::Frame {
        circuit: CircuitId(0),
        bytes: &bytes,
    };
    take(rt, alloc, side, input);
}

// One station more speaks than the bridge learns.
#[test]
fn learns_4096_stations(rt: HostRuntime) {
    let mut side = side_of(&rt, rt.alloc(), BRIDGES, E, 0);
    for number in 0..4_097 {
        speaks(&rt, rt.alloc(), &mut side, number);
    }
    play(&rt, rt.alloc(), &mut side, &IS_FULL);
    drop(side);
}
