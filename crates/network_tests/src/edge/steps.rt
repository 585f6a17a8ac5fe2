//! What a test has an edge take, and what it has to find then.
ghost use Rattle.std.specs.Prelude.{IfSome};
ghost use Rattle.provider_edge.specs.Taking.{IsInRange};

use crate::edge::side::{Side, side_of, take_often};
use crate::octets::{is_same, octets_of};
use edge_model::{Effect, Effects, Input};
use net_base::{
    Arrival, CircuitId, DropCause, EdgeId, LinkCall, SegKey, ServiceId, StateName, WireId,
};
use provider_edge::Edge;
use std::alloc::Global;
use std::process::Abort;

/// One step of a test. Octets are pairs of hexadecimal digits.
#[derive(Clone, Copy)]
pub enum Step {
    /// The connection with a neighbour stands, octets come over it, and it is lost.
    Connected(EdgeId),
    Hears(EdgeId, &'static str),
    Lost(EdgeId),
    /// The edge restarts, and so many ticks pass.
    Restart,
    Ticks(u16),
    /// A frame comes by a circuit, and a packet from a neighbour.
    Frame(u16, &'static str),
    Packet(&'static str),
    /// A circuit and a wire are put on or off, a spoke gets a priority, and a wire is pinged.
    Circuit(u16, bool),
    Wire(u16, bool),
    Priority(u16, u8),
    Ping(u16),
    /// A wire is pinged so many times.
    Pings(u16, u16),
    /// The last input did not apply; or it did, and so many effects came of it.
    Idle,
    Gives(usize),
    /// Of the effects, the one at this place: the session is in this state; a frame left at this circuit.
    Told(usize, StateName),
    Left(usize, u16, &'static str),
    /// A packet was sent to this neighbour on this wire, for a frame of a circuit.
    SentOn(usize, EdgeId, u16),
    /// The one effect: an echo packet was sent to this neighbour on this wire, for no frame; or the answer to the ping of this wire with
    /// this number was told.
    Echoed(EdgeId, u16),
    Ponged(u16, u16),
    /// The one effect, and the effect at this place: a frame or a packet was dropped.
    Dropped(DropCause),
    DroppedAt(usize, DropCause),
    /// The link was called so often; the call at this place put octets towards a neighbour, or sent it a packet.
    Calls(usize),
    Put(usize, EdgeId, &'static str),
    Sent(usize, EdgeId, &'static str),
    /// The session with a neighbour is in this state, so many octets of it are held, and nothing is left of it.
    Session(EdgeId, StateName),
    Held(EdgeId, usize),
    Gone(EdgeId),
    /// So many addresses are learned; the end of the one wire is bound to this label, or to none for 0; the next label that is given.
    Learned(usize),
    Bound(u32),
    NextLabel(u32),
    /// The edge's ends of the one wire advertise a label and are bound, or one of them is not so.
    Stitched(bool),
    /// So many ticks have passed, the edge bridges this service or does not, and it is stopped or is not.
    Passed(u64),
    Bridged(u16, bool),
    Stopped(bool),
}

// The octets that a step names, as text; empty where it names none.
fn text_of(step: Step) -> &'static str {
    match step {
        Step::Hears(_, text) => text,
        Step::Frame(_, text) => text,
        Step::Packet(text) => text,
        Step::Left(_, _, text) => text,
        Step::Put(_, _, text) => text,
        Step::Sent(_, _, text) => text,
        _ => "",
    }
}

// The input of a step that names these octets; none where it says what stands.
fn input_of<'a>(step: Step, bytes: &'a [u8]) -> Option<Input<'a>>
    ensures { IfSome result IsInRange }
{
    match step {
        Step::Connected(peer) => Some(Input::Connected { peer }),
        Step::Hears(peer, _) => Some(Input::Octets { peer, bytes }),
        Step::Lost(peer) => Some(Input::Lost { peer }),
        Step::Restart => Some(Input::Restart),
        Step::Ticks(_) => Some(Input::Tick),
        Step::Frame(circuit, _) => Some(Input::Frame {
            circuit: CircuitId(circuit),
            bytes,
        }),
        Step::Packet(_) => Some(Input::Packet { bytes }),
        Step::Circuit(circuit, on) => Some(Input::Circuit {
            circuit: CircuitId(circuit),
            on,
        }),
        Step::Wire(wire, on) => Some(Input::Wire {
            wire: WireId(wire),
            on,
        }),
        Step::Priority(wire, priority) => Some(Input::Priority {
            wire: WireId(wire),
            priority,
        }),
        Step::Ping(wire) => Some(Input::Ping { wire: WireId(wire) }),
        Step::Pings(wire, _) => Some(Input::Ping { wire: WireId(wire) }),
        _ => None,
    }
}

// How often the input of a step comes.
fn times_of(step: Step) -> u16 {
    match step {
        Step::Ticks(ticks) => ticks,
        Step::Pings(_, pings) => pings,
        _ => 1,
    }
}

// Whether what was told at a place is that the session is in this state.
fn is_told(effects: &Effects, place: usize, named: StateName) -> bool {
    match effects.list.get(place) {
        Some(Effect::Session { state, .. }) => *state == named,
        _ => false,
    }
}

// Whether what was given out at a place is this frame at this circuit.
fn is_left(effects: &Effects, place: usize, at: u16, octets: &[u8]) -> bool {
    match effects.list.get(place) {
        Some(Effect::Left { circuit, bytes }) => {
            circuit.0 == at && is_same(bytes.as_slice(), octets)
        }
        _ => false,
    }
}

// What came as the packet at this place, where it was given out on this wire.
fn sent_for(effects: &Effects, place: usize, to: EdgeId, on: u16) -> Option<Arrival> {
    match effects.list.get(place) {
        Some(
            Effect::Sent {
                peer,
                wire,
                arrival,
                ..
            },
        ) if *peer == to && wire.0 == on => Some(*arrival),
        _ => None,
    }
}

// Whether one answer to a ping was given out, and nothing else.
fn is_ponged(effects: &Effects, of: u16, number: u16) -> bool {
    match effects.list.get(0) {
        Some(Effect::Pong { wire, sequence }) => {
            effects.list.len() == 1 && wire.0 == of && *sequence == number
        }
        _ => false,
    }
}

// Whether what was given out at a place is a loss for this cause.
fn is_dropped(effects: &Effects, place: usize, cause: DropCause) -> bool {
    match effects.list.get(place) {
        Some(Effect::Dropped(told)) => *told == cause,
        _ => false,
    }
}

// Whether the effects are what a step says, which names these octets.
fn agrees_in_effects(effects: &Effects, step: Step, octets: &[u8]) -> bool {
    match step {
        Step::Idle => effects.idle,
        Step::Gives(count) => !effects.idle && effects.list.len() == count,
        Step::Told(place, state) => is_told(effects, place, state),
        Step::Left(place, circuit, _) => is_left(effects, place, circuit, octets),
        Step::SentOn(place, peer, wire) => {
            matches!(
                sent_for(effects, place, peer, wire),
                Some(Arrival::Circuit(_))
            )
        }
        Step::Echoed(peer, wire) => {
            effects.list.len() == 1 && sent_for(effects, 0, peer, wire) == Some(Arrival::Own)
        }
        Step::Ponged(wire, sequence) => is_ponged(effects, wire, sequence),
        Step::Dropped(cause) => effects.list.len() == 1 && is_dropped(effects, 0, cause),
        Step::DroppedAt(place, cause) => is_dropped(effects, place, cause),
        _ => false,
    }
}

// Whether a call brought these octets to a neighbour, as a packet or over the session.
fn is_call(call: Option<&LinkCall>, peer: EdgeId, packet: bool, octets: &[u8]) -> bool {
    match call {
        Some(call) => {
            call.peer == peer && call.packet == packet && is_same(call.bytes.as_slice(), octets)
        }
        None => false,
    }
}

// The label that the end of the first wire is bound to, or 0.
fn bound_label(edge: &Edge) -> u32 {
    let segment = SegKey {
        wire: WireId(0),
        segment: 0,
    };
    match edge.end(segment) {
        Some(end) => match end.remote() {
            Some(binding) => binding.label.number(),
            None => 0,
        },
        None => 0,
    }
}

// Whether the edge is as a step says.
fn agrees_in_edge(edge: &Edge, step: Step) -> bool {
    match step {
        Step::Session(peer, state) => edge.session(peer) == state,
        Step::Held(peer, count) => edge.held(peer) == count,
        Step::Gone(peer) => !edge.has_end(peer),
        Step::Learned(count) => match edge.bridge(ServiceId(0)) {
            Some(bridge) => bridge.table().len() == count,
            None => count == 0,
        },
        Step::Bound(label) => bound_label(edge) == label,
        Step::NextLabel(label) => edge.next_label() == label,
        Step::Stitched(stitched) => edge.is_stitched(WireId(0)) == stitched,
        Step::Passed(ticks) => edge.ticks() == ticks,
        Step::Bridged(service, has) => edge.bridge(ServiceId(service)).is_some() == has,
        Step::Stopped(stopped) => edge.is_stopped() == stopped,
        _ => false,
    }
}

// Whether the calls of the link, the effects or the edge are what a step says, which names these octets.
fn agrees(side: &Side, step: Step, octets: &[u8]) -> bool {
    let calls = side.link.calls();
    match step {
        Step::Calls(count) => calls.len() == count,
        Step::Put(place, peer, _) => is_call(calls.get(place), peer, false, octets),
        Step::Sent(place, peer, _) => is_call(calls.get(place), peer, true, octets),
        _ => agrees_in_effects(&side.effects, step, octets) || agrees_in_edge(&side.edge, step),
    }
}

// Takes a step that is an input; answers whether else what stands is what it says.
fn holds(rt: &impl Abort, alloc: Global, side: &mut Side, step: Step) -> bool {
    let octets = octets_of(rt, alloc, text_of(step));
    match input_of(step, octets.as_slice()) {
        Some(input) => {
            take_often(rt, alloc, side, input, times_of(step));
            true
        }
        None => agrees(side, step, octets.as_slice()),
    }
}

/// Does steps.
pub fn play(rt: &impl Abort, alloc: Global, side: &mut Side, steps: &[Step]) {
    for (place, step) in steps.iter().enumerate() {
        assert!(rt; holds(rt, alloc, side, *step), "step {place}");
    }
}

/// The edge of a scenario with this place does steps; the call of its link with this number fails, and none for 0.
pub fn plays(
    rt: &impl Abort,
    alloc: Global,
    pieces: &[&str],
    me: EdgeId,
    fails: u64,
    begin: &[Step],
    steps: &[Step],
) {
    let mut side = side_of(rt, alloc, pieces, me, fails);
    play(rt, alloc, &mut side, begin);
    play(rt, alloc, &mut side, steps);
    drop(side);
}
