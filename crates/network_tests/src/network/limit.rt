//! The largest network of one edge floods as much as the limit lets be.
ghost use Rattle.std.specs.Prelude.{◌≤◌, length};

use crate::network::steps::{enter, network_of};
use net_base::{List, Octets};
use psn_net::{NetStop, Network};
use std::alloc::Global;
use std::process::Abort;

// An edge and a service.
const EDGE: &str =
    "version = 1\n[[edge]]\nname = \"e\"\naddress = \"10.0.0.1\"\n[[service]]\nname = \"s\"\nmtu = 9198\n";

// An edge with 512 circuits of one service.
fn largest(rt: &impl Abort, alloc: Global) -> Network {
    let mut text = String::new(alloc);
    text.push_str(EDGE).expect(rt, "memory");
    for number in 0..512 {
        let row = format!(in alloc;
            "[[circuit]]\nname = \"c{number}\"\nedge = \"e\"\nservice = \"s\"\n"
        ).expect(rt, "memory");
        text.push_str(row.as_str()).expect(rt, "memory");
    }
    network_of(rt, alloc, &[text.as_str()])
}

// A broadcast of 9,216 octets.
fn broadcast(rt: &impl Abort, alloc: Global) -> Octets
    ensures { length result ≤ 9216 }
{
    List::from_bytes(alloc, [255; 9216].as_slice()).expect(rt, "memory")
}

// The next broadcast is too much, and nothing is changed.
fn is_too_much(rt: &impl Abort, alloc: Global, network: &mut Network, entries: usize) {
    let stop = NetStop::TooMuch {
        weight: 271_356_480,
        event: 58,
    };
    assert!(rt; enter(rt, alloc, network, 0, broadcast(rt, alloc)) == Err(stop));
    assert!(rt; network.weight() == 271_356_480);
    assert!(rt; network.trace().len() == entries);
}

// The trace takes 57 broadcasts, and no other one.
fn fills(rt: &impl Abort, alloc: Global, network: &mut Network) {
    for _done in 0..57 {
        assert!(rt; enter(rt, alloc, network, 0, broadcast(rt, alloc)).is_ok());
    }
    let entries = network.trace().len();
    for _again in 0..3 {
        is_too_much(rt, alloc, network, entries);
    }
}

#[test]
fn stops_where_the_trace_is_too_heavy(rt: HostRuntime) {
    let mut network = largest(&rt, rt.alloc());
    fills(&rt, rt.alloc(), &mut network);
    drop(network.into_trace());
}
