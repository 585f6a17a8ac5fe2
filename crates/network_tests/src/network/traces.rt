//! What tests read of a network and its trace.

use net_base::{EdgeId, Entry, Reason, SegKey, StateName, Trace, WireId};
use psn_net::Network;
use std::alloc::Global;
use std::process::Abort;

// A letter for the state of a session that is told.
fn letter_of(state: StateName) -> char {
    match state {
        StateName::Initialized => '0',
        StateName::OpenSent => '1',
        StateName::OpenRec => '2',
        StateName::Operational => '3',
        StateName::Ended(Reason::Closed) => 'c',
        _ => '?',
    }
}

// A letter for the kind of an entry; of a session that is told, for its state.
fn kind_of(entry: &Entry) -> char {
    match entry {
        Entry::Did { .. } => '>',
        Entry::Idle => 'i',
        Entry::Said { .. } => 's',
        Entry::Session { state, .. } => letter_of(*state),
        Entry::In { .. } => 'n',
        Entry::Left { .. } => 'l',
        Entry::Dropped { .. } => 'd',
        Entry::Aged { .. } => 'a',
        Entry::Wire { down: None, .. } => 'u',
        Entry::Wire { down: Some(_), .. } => 'w',
        _ => '?',
    }
}

/// The kinds of the entries, a letter each.
pub fn kinds_of(rt: &impl Abort, alloc: Global, trace: &Trace) -> String {
    let mut text = String::new(alloc);
    for entry in trace.as_slice() {
        text.push(kind_of(entry)).expect(rt, "memory");
    }
    text
}

/// Whether the entry at a place says these octets, from this edge.
pub fn says(trace: &Trace, place: usize, edge: u16, octets: &[u8]) -> bool {
    match trace.get(place) {
        Some(Entry::Said { from, bytes, .. }) => from.0 == edge && bytes.as_slice() == octets,
        _ => false,
    }
}

/// How many Label Mappings an edge has said to another one, each in a PDU of its own: its type stands behind the ten octets of the PDU
/// header (RFC 5036 section 3.5.7).
pub fn mappings_of(trace: &Trace, me: u16, peer: u16) -> u32 {
    let mut count: u32 = 0;
    for entry in trace.as_slice() {
        if let Entry::Said { from, to, bytes } = entry
            && from.0 == me
            && to.0 == peer
            && let Some((_, [0x04, 0x00, ..])) = bytes.as_slice().split_at_checked(10)
        {
            count = count.saturating_add(1);
        }
    }
    count
}

/// Whether the last event did not apply.
pub fn is_idle(trace: &Trace) -> bool {
    matches!(trace.get(trace.len().saturating_sub(1)), Some(Entry::Idle))
}

// A hexadecimal digit for a number of segments that a test awaits; any other one is a question.
fn digit_of(hops: u64) -> char {
    match hops {
        0 => '0',
        1 => '1',
        2 => '2',
        3 => '3',
        4 => '4',
        8 => '8',
        12 => 'c',
        _ => '?',
    }
}

// After how many segments a frame left at a circuit, one digit a time.
fn push_hops(rt: &impl Abort, text: &mut String, trace: &Trace, frame: u64, at: u16) {
    for entry in trace.as_slice() {
        if let Entry::Left {
            circuit,
            origin,
            hops,
            ..
        } = entry
            && circuit.0 == at
            && *origin == frame
        {
            text.push(digit_of(*hops)).expect(rt, "memory");
        }
    }
}

/// After how many segments a frame left at each of the first six circuits, one hexadecimal digit a time, each behind a stroke.
pub fn hops_of(rt: &impl Abort, alloc: Global, trace: &Trace, frame: u64) -> String {
    let mut text = String::new(alloc);
    for circuit in 0..6 {
        text.push('/').expect(rt, "memory");
        push_hops(rt, &mut text, trace, frame, circuit);
    }
    text
}

/// The first label that an edge has not given, or 0 where there is no such edge.
pub fn next_label(network: &Network, place: u16) -> u32 {
    match network.edge(EdgeId(place)) {
        Some(edge) => edge.next_label(),
        None => 0,
    }
}

/// The label that an edge's end of the first wire is bound to, or 0.
pub fn bound_label(network: &Network, place: u16) -> u32 {
    let key = SegKey {
        wire: WireId(0),
        segment: 0,
    };
    match network.edge(EdgeId(place)) {
        Some(edge) => match edge.end(key) {
            Some(end) => end.remote().map_or(0, |binding| binding.label.number()),
            None => 0,
        },
        None => 0,
    }
}

/// How many ticks have passed at an edge, or none where there is no such edge.
pub fn ticks_of(network: &Network, place: u16) -> Option<u64> {
    match network.edge(EdgeId(place)) {
        Some(edge) => Some(edge.ticks()),
        None => None,
    }
}
