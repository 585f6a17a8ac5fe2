//! What a test has a network do, and what it has to find then.
ghost use Rattle.std.specs.Prelude.{◌<◌, ◌≤◌, length, IfSome};
ghost use Rattle.net_base.specs.plan.Planned.{IsEventOf, IsInPlan};

use crate::network::lent_maps::have_all;
use crate::network::traces::{
    bound_label, hops_of, is_idle, kinds_of, mappings_of, next_label, says, ticks_of,
};
use crate::octets::octets_of;
use crate::scenarios::{Pieces, plan_of};
use net_base::{CircuitId, EdgeId, Event, List, Octets, ServiceId, Trace, WireId};
use psn_net::{NetStop, Network};
use std::alloc::Global;
use std::process::Abort;

/// One step of a test. Edges, circuits and wires are given by their places, and octets are pairs of hexadecimal digits.
#[derive(Clone, Copy)]
pub enum Step {
    /// The ends of a connection come up, octets of it are delivered, and an edge loses it.
    Connect(u16, u16),
    Deliver(u16, u16, u16),
    Lose(u16, u16),
    /// An edge loses it, and its ends come up anew; all that is on its way is delivered before, and then.
    Reconnect(u16, u16),
    /// An edge restarts, and time goes on.
    Restart(u16),
    Tick,
    /// So many ticks pass.
    Ticks(u32),
    /// A packet arrives, or a second copy of it is under way, by its number.
    Arrive(u64),
    Again(u64),
    /// At an edge the first wire is put on or off, gets failure bits, and the seventh one a priority.
    Wire(u16, bool),
    Status(u16, u8),
    Priority(u16, u8),
    /// The first circuit is turned off.
    Off,
    /// A frame comes by a circuit.
    Frame(u16, &'static str),
    /// Whatever is on its way is delivered; and all packets arrive, the first one first, so many of them.
    Settle,
    Flow(u32),
    /// The trace has so many entries, or more than so many.
    Entries(usize),
    Over(usize),
    /// The trace has entries of these kinds, a letter each; one says these octets, from this edge; the last is of an event that
    /// did not apply, or is not.
    Kinds(&'static str),
    /// The last entries are of these kinds.
    Ends(&'static str),
    Says(usize, u16, &'static str),
    Idle(bool),
    /// An edge has said so many Label Mappings to another one.
    Mappings(u16, u16, u32),
    /// It says the Label Mapping with this number once so many ticks have passed, and not before.
    Maps(u16, u16, u32, u32),
    /// The two ends of the first wire are bound to these labels, or to none for 0; an edge gives this label next.
    Bound(u32, u32),
    NextLabel(u16, u32),
    /// The first service is quiet, full and calm, or is not.
    Quiet(bool),
    Full(bool),
    Calm(bool),
    /// So many packets are under way; so many ticks have passed at an edge.
    UnderWay(u32),
    Passed(u16, u64),
    /// After how many segments a frame left at each of the first six circuits, a hexadecimal digit a time, each behind a stroke.
    Left(u64, &'static str),
}

/// What a network does: its scenario, how it begins, and what it does then.
pub type Run = (Pieces, &'static [Step], &'static [Step]);

/// A place among so many.
pub fn place_in(rt: &impl Abort, count: usize, place: u16) -> u16
    ensures { result < count }
{
    assert!(rt; usize::from(place) < count);
    place
}

// The event of a step, where a plan has so many edges, circuits and wires; none where the step is none, or a frame.
fn event_in(
    rt: &impl Abort,
    edges: usize,
    circuits: usize,
    wires: usize,
    step: Step,
) -> Option<Event>
    ensures { IfSome result (IsInPlan edges circuits wires) }
{
    match step {
        Step::Connect(from, to) => Some(Event::Connect {
            from: EdgeId(place_in(rt, edges, from)),
            to: EdgeId(place_in(rt, edges, to)),
        }),
        Step::Deliver(from, to, count) => Some(Event::Deliver {
            from: EdgeId(place_in(rt, edges, from)),
            to: EdgeId(place_in(rt, edges, to)),
            count,
        }),
        Step::Lose(me, peer) => Some(Event::Lose {
            edge: EdgeId(place_in(rt, edges, me)),
            peer: EdgeId(place_in(rt, edges, peer)),
        }),
        Step::Restart(me) => Some(Event::Restart {
            edge: EdgeId(place_in(rt, edges, me)),
        }),
        Step::Tick => Some(Event::Tick),
        Step::Arrive(packet) => Some(Event::Arrive { packet }),
        Step::Again(packet) => Some(Event::Again { packet }),
        Step::Wire(me, on) => Some(Event::Wire {
            edge: EdgeId(place_in(rt, edges, me)),
            wire: WireId(place_in(rt, wires, 0)),
            on,
        }),
        Step::Status(me, bits) => Some(Event::Status {
            edge: EdgeId(place_in(rt, edges, me)),
            wire: WireId(place_in(rt, wires, 0)),
            bits: bits.min(31),
        }),
        Step::Priority(me, priority) => Some(Event::Priority {
            edge: EdgeId(place_in(rt, edges, me)),
            wire: WireId(place_in(rt, wires, 6)),
            priority,
        }),
        Step::Off => Some(Event::Circuit {
            circuit: CircuitId(place_in(rt, circuits, 0)),
            on: false,
        }),
        _ => None,
    }
}

/// The octets of pairs of hexadecimal digits, a frame's at most.
pub fn frame_octets(rt: &impl Abort, alloc: Global, text: &str) -> Octets
    ensures { length result ≤ 9216 }
{
    let octets = octets_of(rt, alloc, text);
    assert!(rt; octets.len() <= 9216);
    List::from_bytes(alloc, octets.as_slice()).expect(rt, "memory")
}

// The network does an event, and after it every map that it lends has what its table has.
fn apply(rt: &impl Abort, alloc: Global, network: &mut Network, event: &Event)
    requires { IsEventOf network.old.plan event.now }
{
    assert!(rt; network.apply(alloc, event).is_ok());
    assert!(rt; have_all(network));
}

// The network does an event, where it is one; answers whether it is.
fn applied(rt: &impl Abort, alloc: Global, network: &mut Network, event: Option<Event>) -> bool
    requires { IfSome event (IsEventOf network.old.plan) }
{
    match event {
        Some(event) => {
            apply(rt, alloc, network, &event);
            true
        }
        None => false,
    }
}

/// A frame of these octets comes by a circuit.
pub fn enter(
    rt: &impl Abort,
    alloc: Global,
    network: &mut Network,
    place: u16,
    bytes: Octets,
) -> Result<(), NetStop>
    requires { length bytes ≤ 9216 }
{
    let circuit = CircuitId(place_in(rt, network.plan().circuits.len(), place));
    network.apply(alloc, &Event::Frame { circuit, bytes })
}

// A frame of these octets comes by a circuit, and after it every map that the network lends has what its table has.
fn enters(rt: &impl Abort, alloc: Global, network: &mut Network, place: u16, text: &str) {
    let bytes = frame_octets(rt, alloc, text);
    assert!(rt; enter(rt, alloc, network, place, bytes).is_ok());
    assert!(rt; have_all(network));
}

// Delivers whatever is on its way, in at most 100 events.
fn settle(rt: &impl Abort, alloc: Global, network: &mut Network) {
    for _done in 0..100 {
        let event = network.next_delivery();
        if !applied(rt, alloc, network, event) {
            return;
        }
    }
}

// So many ticks pass.
fn passes(rt: &impl Abort, alloc: Global, network: &mut Network, count: u32) {
    for _tick in 0..count {
        apply(rt, alloc, network, &Event::Tick);
    }
}

// The connection of two edges is lost and comes up anew, and all that is on its way is delivered, before and then.
fn reconnects(rt: &impl Abort, alloc: Global, network: &mut Network, me: u16, peer: u16) {
    did_event(rt, alloc, network, Step::Lose(me, peer));
    settle(rt, alloc, network);
    did_event(rt, alloc, network, Step::Connect(me, peer));
    settle(rt, alloc, network);
}

// So many ticks pass, and at the last of them an edge has said so many Label Mappings to another one, one more than before.
fn maps(
    rt: &impl Abort,
    alloc: Global,
    network: &mut Network,
    (me, peer): (u16, u16),
    ticks: u32,
    count: u32,
) {
    passes(rt, alloc, network, ticks.saturating_sub(1));
    let before = mappings_of(network.trace(), me, peer);
    passes(rt, alloc, network, 1);
    let after = mappings_of(network.trace(), me, peer);
    assert!(rt;
        before.saturating_add(1) == count && after == count,
        "{before}, {after}"
    );
}

// All packets arrive, the first one first: so many, of at most 100.
fn flows(rt: &impl Abort, alloc: Global, network: &mut Network, count: u32) {
    let mut arrivals: u32 = 0;
    for _arrival in 0..100 {
        let event = network.next_arrival();
        if !applied(rt, alloc, network, event) {
            break;
        }
        arrivals = arrivals.saturating_add(1);
    }
    assert!(rt; arrivals == count, "{arrivals} packets");
}

// Does a step that is one event; answers whether it is.
fn did_event(rt: &impl Abort, alloc: Global, network: &mut Network, step: Step) -> bool {
    let plan = network.plan();
    let (edges, circuits, wires) = (plan.edges.len(), plan.circuits.len(), plan.wires.len());
    let event = event_in(rt, edges, circuits, wires, step);
    applied(rt, alloc, network, event)
}

// Does a step; answers whether it is one to do.
fn did(rt: &impl Abort, alloc: Global, network: &mut Network, step: Step) -> bool {
    match step {
        Step::Frame(place, text) => enters(rt, alloc, network, place, text),
        Step::Settle => settle(rt, alloc, network),
        Step::Flow(count) => flows(rt, alloc, network, count),
        Step::Ticks(count) => passes(rt, alloc, network, count),
        Step::Reconnect(me, peer) => reconnects(rt, alloc, network, me, peer),
        Step::Maps(me, peer, ticks, count) => { maps(rt, alloc, network, (me, peer), ticks, count) }
        _ => return did_event(rt, alloc, network, step),
    }
    true
}

// Whether the kinds of the entries are these.
fn has_kinds(rt: &impl Abort, alloc: Global, trace: &Trace, kinds: &str) -> bool {
    let found = kinds_of(rt, alloc, trace);
    found.as_str() == kinds
}

// Whether the kinds of the last entries are these.
fn ends_with(rt: &impl Abort, alloc: Global, trace: &Trace, kinds: &str) -> bool {
    let found = kinds_of(rt, alloc, trace);
    found.as_str().ends_with(kinds)
}

// Whether the entry at a place says these octets.
fn has_said(
    rt: &impl Abort,
    alloc: Global,
    trace: &Trace,
    place: usize,
    edge: u16,
    text: &str,
) -> bool {
    let octets = octets_of(rt, alloc, text);
    says(trace, place, edge, octets.as_slice())
}

// Whether a frame left after so many segments at each of the circuits.
fn has_left(rt: &impl Abort, alloc: Global, trace: &Trace, frame: u64, hops: &str) -> bool {
    let found = hops_of(rt, alloc, trace, frame);
    found.as_str() == hops
}

// Whether the trace is what a step says.
fn agrees_in_trace(rt: &impl Abort, alloc: Global, trace: &Trace, step: Step) -> bool {
    match step {
        Step::Entries(count) => trace.len() == count,
        Step::Over(count) => trace.len() > count,
        Step::Kinds(kinds) => has_kinds(rt, alloc, trace, kinds),
        Step::Says(place, me, text) => has_said(rt, alloc, trace, place, me, text),
        Step::Ends(kinds) => ends_with(rt, alloc, trace, kinds),
        Step::Idle(idle) => is_idle(trace) == idle,
        Step::Mappings(me, peer, count) => mappings_of(trace, me, peer) == count,
        Step::Left(frame, hops) => has_left(rt, alloc, trace, frame, hops),
        _ => false,
    }
}

// Whether the state, with that of the first service, or else the trace is what a step says.
fn agrees(rt: &impl Abort, alloc: Global, network: &Network, step: Step) -> bool {
    assert!(rt; !network.plan().services.is_empty());
    match step {
        Step::Quiet(quiet) => network.is_quiet(ServiceId(0)) == quiet,
        Step::Full(full) => network.is_full(ServiceId(0)) == full,
        Step::Calm(calm) => network.is_calm(ServiceId(0)) == calm,
        Step::Bound(first, second) => {
            bound_label(network, 0) == first && bound_label(network, 1) == second
        }
        Step::NextLabel(me, label) => next_label(network, me) == label,
        Step::UnderWay(count) => network.under_way() == count,
        Step::Passed(me, ticks) => ticks_of(network, me) == Some(ticks),
        _ => agrees_in_trace(rt, alloc, network.trace(), step),
    }
}

/// Does steps.
pub fn play(rt: &impl Abort, alloc: Global, network: &mut Network, steps: &[Step]) {
    for (place, step) in steps.iter().enumerate() {
        if !did(rt, alloc, network, *step) {
            assert!(rt; agrees(rt, alloc, network, *step), "step {place}");
        }
    }
}

/// The network of a scenario, which is given in pieces, before its first event.
pub fn network_of(rt: &impl Abort, alloc: Global, pieces: &[&str]) -> Network {
    let plan = plan_of(rt, alloc, pieces);
    let network = Network::open(alloc, &plan).expect(rt, "memory");
    drop(plan);
    network
}

// The network of a scenario, which is given in pieces, does steps.
fn plays(rt: &impl Abort, alloc: Global, pieces: &[&str], begin: &[Step], steps: &[Step]) {
    let mut network = network_of(rt, alloc, pieces);
    play(rt, alloc, &mut network, begin);
    play(rt, alloc, &mut network, steps);
    let entries = network.trace().len();
    let trace = network.into_trace();
    assert!(rt; trace.len() == entries);
    drop(trace);
}

/// Networks do these runs, each from the beginning.
pub fn plays_all(rt: &impl Abort, alloc: Global, runs: &[Run]) {
    for (pieces, begin, steps) in runs.iter() {
        plays(rt, alloc, pieces, begin, steps);
    }
}
