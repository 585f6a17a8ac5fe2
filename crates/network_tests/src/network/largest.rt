//! The largest frame crosses a wire.
ghost use Rattle.std.specs.Prelude.{◌≤◌, length};

use crate::network::steps::{Step, enter, network_of, play};
use crate::scenarios::LARGEST;
use net_base::{Entry, List, Octets};
use psn_net::Network;
use std::alloc::Global;
use std::process::Abort;

const UP: [Step; 2] = [Step::Connect(0, 1), Step::Settle];

const ARRIVES: [Step; 2] = [Step::UnderWay(1), Step::Flow(1)];

// A frame of 9,216 octets that repeat after 251 of them, from one station to another.
fn frame(rt: &impl Abort, alloc: Global) -> Octets
    ensures { length result ≤ 9216 }
{
    let mut octets = List::new(alloc);
    for place in 0..9_216u32 {
        octets.push((place % 251) as u8).expect(rt, "memory");
    }
    assert!(rt; octets.len() == 9_216);
    octets
}

// Whether the last entry is that these octets left at the second circuit.
fn has_left(network: &Network, octets: &[u8]) -> bool {
    let trace = network.trace();
    match trace.get(trace.len().saturating_sub(1)) {
        Some(Entry::Left { circuit, bytes, .. }) => circuit.0 == 1 && bytes.as_slice() == octets,
        _ => false,
    }
}

// The frame crosses, and leaves as it entered.
fn crosses(rt: &impl Abort, alloc: Global, network: &mut Network) {
    play(rt, alloc, network, &UP);
    assert!(rt; enter(rt, alloc, network, 0, frame(rt, alloc)).is_ok());
    play(rt, alloc, network, &ARRIVES);
    let octets = frame(rt, alloc);
    assert!(rt; has_left(network, octets.as_slice()));
}

#[test]
fn carries_the_largest_frame(rt: HostRuntime) {
    let mut network = network_of(&rt, rt.alloc(), LARGEST);
    crosses(&rt, rt.alloc(), &mut network);
    drop(network.into_trace());
}
