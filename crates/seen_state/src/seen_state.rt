//! What entries have shown of a network.
ghost use Rattle.std.specs.Prelude.{◌≡◌, ◌<◌, ◌≤◌, ◌+◌, ◌^◌, IfOk, OnOk};
ghost use Rattle.net_base.specs.plan.Accepted.{IsWithinLimits};
ghost use Rattle.seen_network.specs.{Calm.{is_seen_calm}, Once.{has_seen, names_seen}, Seen.{Seen, happened, nothing_seen, told_by_itself}};
ghost use Rattle.seen_state.specs.{Placed.{IsEventWithin, IsWithin}, SeenState.{Knows}, SeenEdges.{sizes_of}};

use crate::copies::Copies;
use crate::seen_edges::SeenEdges;
use net_base::{CircuitId, Entry, Event, NoMemory, Plan, ServiceId};
use std::alloc::Global;

/// What entries have shown of a network.
#[derive(Drop)]
pub struct SeenState {
    pub seen_edges: SeenEdges,
    pub copies: Copies,
}

impl SeenState {
    /// What is seen of a plan's network before the first entry.
    pub fn new(alloc: Global, plan: &Plan) -> Result<SeenState, NoMemory>
        ensures sizes { IfOk result (λ state. state.seen_edges.sizes ≡ sizes_of plan.now) }
        ensures knows { IfOk result (λ state. Knows state nothing_seen) }
        ensures comings { IfOk result (λ state. state.copies.comings ≡ 0) }
    {
        match SeenEdges::new(alloc, plan) {
            Ok(seen_edges) => Ok(SeenState {
                seen_edges,
                copies: Copies::new(alloc),
            }),
            Err(NoMemory) => Err(NoMemory),
        }
    }

    /// An event applied. The edges whose ends it changes, and the circuit that it puts on or off, are those of the plan.
    pub fn happen(&mut self, event: &Event) -> Result<(), NoMemory>
        requires { IsEventWithin self.old.seen_edges.sizes event.now }
        ensures sizes { self.new.seen_edges.sizes ≡ self.old.seen_edges.sizes }
        ensures comings { self.new.copies.comings ≡ self.old.copies.comings }
        ensures knows { OnOk result ((seen : Seen) → Knows self.old seen → Knows self.new (happened event.now seen)) }
    {
        self.seen_edges.happen(event);
        self.copies.happen(event)
    }

    /// An entry is told. The edges and wires of which it tells something are those of the plan.
    pub fn tell(&mut self, entry: &Entry) -> Result<(), NoMemory>
        requires within { IsWithin self.old.seen_edges.sizes entry.now }
        requires few { self.old.copies.comings < 2 ^ 63 }
        ensures sizes { self.new.seen_edges.sizes ≡ self.old.seen_edges.sizes }
        ensures comings { OnOk result (self.new.copies.comings ≤ self.old.copies.comings + 1) }
        ensures knows { OnOk result ((seen : Seen) → Knows self.old seen → Knows self.new (told_by_itself entry.now seen)) }
    {
        match self.seen_edges.tell(entry) {
            Ok(()) => self.copies.tell(entry),
            Err(NoMemory) => Err(NoMemory),
        }
    }

    /// Whether a service is seen calm (RFC 4762 sections 4.4 and 10.2). It takes no memory.
    pub fn is_calm(&self, plan: &Plan, service: ServiceId) -> bool
        requires { IsWithinLimits plan.now }
        ensures { (seen : Seen) → Knows self.now seen → result ≡ is_seen_calm plan.now seen service }
    {
        self.seen_edges.is_calm(plan, service)
    }

    /// Whether a circuit is seen on.
    pub fn is_on(&self, circuit: CircuitId) -> bool
        ensures { (seen : Seen) → Knows self.now seen → result ≡ seen.on circuit.0 }
    {
        self.seen_edges.is_on(circuit)
    }

    /// Whether some copy of a frame is seen under way.
    pub fn has(&self, origin: u64) -> bool
        ensures { (seen : Seen) → Knows self.now seen → result ≡ has_seen seen origin }
    {
        self.copies.has(origin)
    }

    /// Whether the packet with a number is seen under way, and carries a copy of a frame.
    pub fn names(&self, origin: u64, number: u64) -> bool
        ensures { (seen : Seen) → Knows self.now seen → result ≡ names_seen seen origin number }
    {
        self.copies.names(origin, number)
    }
}
