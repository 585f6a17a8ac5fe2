//! The network of a run.
ghost use Rattle.std.specs.Prelude.{◌≡◌, ◌<◌, ◌≤◌, ◌++◌, ◌^◌, ◌-◌, ◌↔◌, [], min, true, false, length, None, IfErr, IfOk, IfSome, IsSome, OnOk};
ghost use Rattle.net_base.specs.{plan.Accepted.{IsChecked}, plan.Planned.{IsEventOf}};
ghost use Rattle.provider_edge.specs.Lists.{seen as seen_edge};
ghost use Rattle.network_model.specs.{Connection.{is_deliverable}, Delivery.{first_pair, next_delivery}, Packet.{next_arrival}};
ghost use Rattle.network_model.specs.{State.{edge_at, empty_network}, Step.{step}};
ghost use Rattle.psn_net.specs.{Applying.{Stops}, Lists.{network_seen}, Weight.{may_send, stop_at, weight_of}};

mod calm;
mod marking;

use crate::NetStop;
use crate::network::marking::{mark_after, mark_told};
use crate::pair_index::PairIndex;
use crate::parts::Parts;
use net_base::{CircuitId, EdgeId, Event, NoMemory, Octets, Plan, Trace};
use provider_edge::Edge;
use std::alloc::Global;
use std::marker::Model;

/// As many octets as a delivery asks for at most: it takes all that are on their way between two edges, where there are no
/// more.
const MOST_OCTETS: u16 = 65535;

/// The edges of a plan, what is on its way between them, and the trace of what has happened. Contracts see it as lists by
/// the plan's places, and by `seen` as the state of the network. The index says what may be delivered, until memory is
/// refused.
#[derive(Drop)]
pub struct Network {
    parts: Parts,
    index: PairIndex,
}

impl Model for Network {
    ghost use Rattle.std.specs.Prelude.{◌≡◌, false, length};
    ghost use Rattle.psn_net.specs.{DeliveryIndex.{IsIndexed}, Lists.{NetLists}};

    ghost Value = { NetLists };

    ghost view = { λ n. n.parts };

    ghost invariant = { λ n. (length n.index.rows ≡ length n.parts.plan.edges) × (n.parts.failed ≡ false → IsIndexed n.parts n.index) };
}

impl Network {
    /// The network of a plan before its first event.
    pub fn open(alloc: Global, plan: &Plan) -> Result<Network, NoMemory>
        requires { IsChecked plan.now }
        ensures plan { IfOk result (λ network. network.plan ≡ plan.now) }
        ensures state { IfOk result (λ network. network_seen network ≡ empty_network plan.now) }
        ensures trace { IfOk result (λ network. network.trace ≡ []) }
        ensures going { IfOk result (λ network. network.failed ≡ false) }
    {
        Network::open_with_capacity(alloc, plan, 0)
    }

    /// The same with room for so many entries: the trace is not moved until there are more.
    #[tactic(auto, using(crate::proofs::IndexLemmas::indexed_first))]
    pub fn open_with_capacity(
        alloc: Global,
        plan: &Plan,
        entries: usize,
    ) -> Result<Network, NoMemory>
        requires { IsChecked plan.now }
        ensures plan { IfOk result (λ network. network.plan ≡ plan.now) }
        ensures state { IfOk result (λ network. network_seen network ≡ empty_network plan.now) }
        ensures trace { IfOk result (λ network. network.trace ≡ []) }
        ensures going { IfOk result (λ network. network.failed ≡ false) }
    {
        let index = PairIndex::open(alloc, plan.edges.len())?;
        match Parts::open(alloc, plan, entries) {
            Ok(parts) => Ok(Network { parts, index }),
            Err(fault) => Err(fault),
        }
    }

    /// Does one event, and adds to the trace what it tells. The event names places of the plan, and its numbers are in
    /// their ranges; a frame has at most 262,144 octets.
    ///
    /// `TooMuch` exactly where the trace already weighs more than 268,435,456, and else `Crowded` exactly where the event may
    /// send a packet (a frame, an arrival, a repetition or a ping) and 65,536 or more are under way; network and trace are
    /// then as they were. `NoMemory` where memory was refused; from then on the network is given up, and answers the same to
    /// every event.
    #[tactic(auto, using(crate::proofs::WeightLemmas::stops_at, crate::proofs::KeptLemmas::indexed_beside))]
    pub fn apply(&mut self, alloc: Global, event: &Event) -> Result<(), NetStop>
        requires { IsEventOf self.old.plan event.now }
        ensures plan { self.new.plan ≡ self.old.plan }
        ensures state { OnOk result (network_seen self.new ≡ (step self.old.plan (network_seen self.old) event.now).state) }
        ensures told { OnOk result (self.new.trace ≡ self.old.trace ++ (step self.old.plan (network_seen self.old) event.now).entries) }
        ensures within { OnOk result (stop_at self.old.trace (length (network_seen self.old).under_way) event.now ≡ None) }
        ensures going { OnOk result ((self.old.failed ≡ false) × (self.new.failed ≡ false)) }
        ensures stops { IfErr result (Stops self.old self.new event.now) }
        ensures given_up { self.old.failed ≡ true → IfErr result (λ stop. stop ≡ NetStop.NoMemory) }
    {
        if self.parts.has_failed() {
            return Err(NetStop::NoMemory);
        }
        if let Some(stop) = self.parts.refusal_by(may_send(event)) {
            return Err(stop);
        }
        let told = self.parts.trace().len();
        match self.parts.work(alloc, event) {
            Ok(()) => {
                mark_after(&mut self.index, &self.parts, event, told);
                Ok(())
            }
            Err(NoMemory) => {
                self.parts.fail();
                Err(NetStop::NoMemory)
            }
        }
    }

    /// Lets a frame enter at a circuit: does the event of this frame as `apply` does it, and keeps its octets. The circuit is one
    /// of the plan; the frame has at most 262,144 octets.
    ///
    /// `TooMuch` exactly where the trace already weighs more than 268,435,456, and else `Crowded` exactly where 65,536 or more
    /// packets are under way; network and trace are then as they were. `NoMemory` where memory was refused; from then on the
    /// network is given up, and answers the same to every event.
    #[tactic(auto, using(crate::proofs::WeightLemmas::stops_at, crate::proofs::KeptLemmas::indexed_beside_frame))]
    pub fn enter(&mut self, alloc: Global, circuit: CircuitId, bytes: Octets) -> Result<(), NetStop>
        requires { IsEventOf self.old.plan (Event.Frame circuit bytes) }
        ensures plan { self.new.plan ≡ self.old.plan }
        ensures state { OnOk result (network_seen self.new ≡ (step self.old.plan (network_seen self.old) (Event.Frame circuit bytes)).state) }
        ensures told { OnOk result (self.new.trace ≡ self.old.trace ++ (step self.old.plan (network_seen self.old) (Event.Frame circuit bytes)).entries) }
        ensures within { OnOk result (stop_at self.old.trace (length (network_seen self.old).under_way) (Event.Frame circuit bytes) ≡ None) }
        ensures going { OnOk result ((self.old.failed ≡ false) × (self.new.failed ≡ false)) }
        ensures stops { IfErr result (Stops self.old self.new (Event.Frame circuit bytes)) }
        ensures given_up { self.old.failed ≡ true → IfErr result (λ stop. stop ≡ NetStop.NoMemory) }
    {
        if self.parts.has_failed() {
            return Err(NetStop::NoMemory);
        }
        if let Some(stop) = self.parts.refusal_by(true) {
            return Err(stop);
        }
        let before = self.parts.trace().len();
        match self.parts.work_frame(alloc, circuit, bytes) {
            Ok(()) => {
                mark_told(&mut self.index, &self.parts, before);
                Ok(())
            }
            Err(NoMemory) => {
                self.parts.fail();
                Err(NetStop::NoMemory)
            }
        }
    }

    /// The next delivery: up to 65,535 octets between the first two edges that have something to deliver, in the plan's
    /// order of the sender and then of the receiver. `None` exactly where no two edges have. It is found without
    /// looking at all pairs of edges.
    pub fn next_delivery(&self) -> Option<Event>
        ensures next { result ≡ next_delivery self.now.plan (network_seen self.now) }
        ensures planned { IfSome result (IsEventOf self.now.plan) }
    {
        match self.next_pair() {
            Some((from, to)) => Some(Event::Deliver {
                from: EdgeId(from as u16),
                to: EdgeId(to as u16),
                count: MOST_OCTETS,
            }),
            None => None,
        }
    }

    /// The next arrival: the packet under way with the lowest number. `None` exactly where none is under way. It is found
    /// in logarithmic time.
    pub fn next_arrival(&self) -> Option<Event>
        ensures next { result ≡ next_arrival (network_seen self.now) }
        ensures planned { IfSome result (IsEventOf self.now.plan) }
    {
        self.parts.next_arrival()
    }

    // The first two edges that have something to deliver. After memory was refused the index may lack something.
    #[tactic(auto, using(crate::proofs::IndexLemmas::found_first))]
    fn next_pair(&self) -> Option<(usize, usize)>
        ensures first { result ≡ first_pair (is_deliverable (network_seen self.now)) (length self.now.plan.edges) 0 (length self.now.plan.edges) }
        ensures within { IfSome result (λ pair. (pair.0 < length self.now.plan.edges) × (pair.1 < length self.now.plan.edges)) }
        ensures few { IfSome result (λ pair. (pair.0 < 64) × (pair.1 < 64)) }
    {
        // Asked so that what always holds of it is at hand for the proof.
        let _count = self.parts.count();
        if self.parts.has_failed() {
            return self.parts.first_deliverable();
        }
        self.index.first()
    }

    /// How many edges the plan has, at most 64, since it is checked.
    pub fn count(&self) -> usize
        ensures count { result ≡ length self.now.plan.edges }
        ensures few { result ≤ 64 }
        ensures checked { IsChecked self.now.plan }
    {
        self.parts.count()
    }

    /// The plan.
    pub fn plan(&self) -> &Plan
        ensures { result.now ≡ self.now.plan }
    {
        self.parts.plan()
    }

    /// The trace of what has happened.
    pub fn trace(&self) -> &Trace
        ensures { result.now ≡ self.now.trace }
    {
        self.parts.trace()
    }

    /// The trace of what has happened.
    pub fn into_trace(self) -> Trace
        ensures { result ≡ self.trace }
    {
        self.parts.into_trace()
    }

    /// The edge with this place, over the network's plan and in its part of the network's state; `None` exactly where the plan
    /// has no such edge.
    pub fn edge(&self, id: EdgeId) -> Option<&Edge>
        ensures some { IsSome result ↔ (id.0 < length self.now.plan.edges) }
        ensures part { IfSome result (λ edge. seen_edge edge.now ≡ edge_at (network_seen self.now) id) }
        ensures plan { IfSome result (λ edge. edge.now.plan ≡ self.now.plan) }
        ensures place { IfSome result (λ edge. edge.now.me ≡ id) }
    {
        self.parts.edge(id)
    }

    /// How many packets are under way, counted up to 2^32 - 1.
    pub fn under_way(&self) -> u32
        ensures { result ≡ min (length (network_seen self.now).under_way) (2 ^ 32 - 1) }
    {
        self.parts.under_way()
    }

    /// What the trace weighs: 64 for each entry, and the octets of the frame, packet or PDU that it holds, counted up to
    /// 2^64 - 1.
    pub fn weight(&self) -> u64
        ensures { result ≡ weight_of self.now.trace }
    {
        self.parts.weight()
    }
}

// Whether an event may send a packet: a frame, an arrival, a repetition and a ping may.
fn may_send(event: &Event) -> bool
    ensures { result ≡ may_send event.now }
{
    match event {
        Event::Frame { .. } | Event::Arrive { .. } | Event::Again { .. } | Event::Ping { .. } =>
            true,
        _ => false,
    }
}
