//! A network tells the same of a frame that it is given and of one that it is lent.

use crate::network::steps::{Step, frame_octets, network_of, place_in, play};
use crate::scenarios::BRIDGE;
use net_base::{CircuitId, Entry, Event, Trace};
use psn_net::Network;
use std::alloc::Global;
use std::process::Abort;

/// A broadcast from the station 02:00:00:00:00:01, and a frame to it from the station 02:00:00:00:00:02.
const BROADCAST: &str = "ffffffffffff0200000000010800";

const ANSWER: &str = "0200000000010200000000020800";

// The broadcasts leave at the other two circuits, and the answer at the first one; the last frame does not apply.
const STEPS: [Step; 6] = [
    Step::Frame(0, BROADCAST),
    Step::Frame(1, ANSWER),
    Step::Frame(0, BROADCAST),
    Step::Off,
    Step::Frame(0, BROADCAST),
    Step::Kinds(">nll>nl>nll>>i"),
];

// A network is given a frame that enters at a circuit.
fn is_given(rt: &impl Abort, alloc: Global, network: &mut Network, place: u16, text: &str) {
    let circuit = CircuitId(place_in(rt, network.plan().circuits.len(), place));
    let bytes = frame_octets(rt, alloc, text);
    assert!(rt; network.enter(alloc, circuit, bytes).is_ok());
}

// A network is given the frames of these steps, and does the others.
fn is_given_all(rt: &impl Abort, alloc: Global, network: &mut Network, steps: &[Step]) {
    for step in steps.iter() {
        match *step {
            Step::Frame(place, text) => is_given(rt, alloc, network, place, text),
            other => play(rt, alloc, network, &[other]),
        }
    }
}

// The circuit, the number and the octets of the frame that an entry tells.
fn frame_of(entry: &Entry) -> Option<(u16, u64, &[u8])> {
    match entry {
        Entry::Did {
            event: Event::Frame { circuit, bytes },
        } => Some((circuit.0, 0, bytes.as_slice())),
        Entry::In {
            circuit,
            number,
            bytes,
        } => Some((circuit.0, *number, bytes.as_slice())),
        Entry::Left {
            circuit,
            origin,
            bytes,
            ..
        } => Some((circuit.0, *origin, bytes.as_slice())),
        _ => None,
    }
}

// Whether two entries tell the same of a frame, or nothing.
fn tell_same(entry: &Entry, other: &Entry) -> bool {
    match (frame_of(entry), frame_of(other)) {
        (Some((circuit, number, bytes)), Some((at, count, octets))) => {
            circuit == at && number == count && bytes == octets
        }
        (None, None) => true,
        _ => false,
    }
}

// Both traces have as many entries, with the same circuits, numbers and octets of frames.
fn are_same(rt: &impl Abort, trace: &Trace, other: &Trace) {
    assert!(rt; trace.len() == other.len());
    for (entry, beside) in trace.as_slice().iter().zip(other.as_slice().iter()) {
        assert!(rt; tell_same(entry, beside));
    }
}

// A network that is given the frames has the same trace.
fn is_told_alike(rt: &impl Abort, alloc: Global, trace: &Trace) {
    let mut given = network_of(rt, alloc, BRIDGE);
    is_given_all(rt, alloc, &mut given, &STEPS);
    are_same(rt, trace, given.trace());
    drop(given.into_trace());
}

// The one network is lent each frame. Each network is held by a function of its own: to let two go in one would take long to prove.
#[test]
fn tells_the_same_of_a_frame_that_is_given(rt: HostRuntime) {
    let mut lent = network_of(&rt, rt.alloc(), BRIDGE);
    play(&rt, rt.alloc(), &mut lent, &STEPS);
    is_told_alike(&rt, rt.alloc(), lent.trace());
    drop(lent.into_trace());
}
