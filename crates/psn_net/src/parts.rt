//! The parts of a network.
ghost use Rattle.std.specs.Prelude.{◌≡◌, ◌<◌, ◌+◌, ◌++◌, ◌∷◌, ◌^◌, ◌-◌, ◌↔◌, [], min, true, false, length, IfOk, IfSome, IsSome, OnErr, OnOk};
ghost use Rattle.net_base.specs.{plan.Accepted.{IsChecked}, plan.Planned.{IsEventOf}};
ghost use Rattle.edge_model.specs.{Step.{edge_step}, Work.{beginning}};
ghost use Rattle.provider_edge.specs.{Lists.{seen as seen_edge}, Said.{AllFit}, Taking.{IsInRange}};
ghost use Rattle.network_model.specs.{Absorb.{begin_at, taken_all}, State.{edge_at, empty_network}, Step.{step}};
ghost use Rattle.psn_net.specs.Lists.{HasDriven, HasRoom, HasStepped, KeepsNetwork, network_seen};
ghost use Rattle.psn_net.specs.{Weight.{may_send, stop_at, weight_of}, Working.{HasWorked}};

mod absorb;
mod carrying;
mod connections;
mod events;
mod lookups;
mod opening;
mod packets;
mod planned;

use crate::NetStop;
use crate::ledger::Ledger;
use crate::packets::Packets;
use crate::parts::opening::open_edges;
use crate::psn_link::PsnLink;
use crate::shared_plan::SharedPlan;
use edge_model::{Effects, Input};
use net_base::{CircuitId, EdgeId, Entry, Event, NoMemory, Octets, Plan, Trace};
use octet_pipes::Pipes;
use provider_edge::Edge;
use std::alloc::Global;
use std::marker::Model;
use std::rc::Rc;

/// The most that a trace weighs before a further event is done.
const MOST_WEIGHT: u64 = 268_435_456;

/// So many packets are under way at most before an event that may send one is done.
const MOST_PACKETS: u32 = 65_536;

/// The edges of a plan, what is on its way between them, and the trace of what has happened. Contracts see it as lists by
/// the plan's places, and by `seen` as the state of the network.
#[derive(Drop)]
pub struct Parts {
    plan: SharedPlan,
    edges: Vec<Edge>,
    pipes: Pipes,
    packets: Packets,
    entered: u64,
    ledger: Ledger,
    failed: bool,
}

impl Model for Parts {
    ghost use Rattle.psn_net.specs.Lists.{IsNetwork, NetLists};

    ghost Value = { NetLists };

    ghost view = { λ n. record { plan = n.plan; edges = n.edges.items; pipes = n.pipes; packets = n.packets; entered = n.entered; trace = n.ledger; failed = n.failed } };

    ghost invariant = { λ n. IsNetwork (record { plan = n.plan; edges = n.edges.items; pipes = n.pipes; packets = n.packets; entered = n.entered; trace = n.ledger; failed = n.failed }) };
}

impl Parts {
    /// The network of a plan before its first event, with room for so many entries.
    pub fn open(alloc: Global, plan: &Plan, entries: usize) -> Result<Parts, NoMemory>
        requires { IsChecked plan.now }
        ensures plan { IfOk result (λ parts. parts.plan ≡ plan.now) }
        ensures state { IfOk result (λ parts. network_seen parts ≡ empty_network plan.now) }
        ensures trace { IfOk result (λ parts. parts.trace ≡ []) }
        ensures going { IfOk result (λ parts. parts.failed ≡ false) }
    {
        let plan = Rc::new(alloc, plan.copy(alloc)?)?;
        match SharedPlan::over(alloc, plan) {
            Ok(shared) => Parts::with_plan(alloc, shared, entries),
            Err(fault) => Err(fault),
        }
    }

    // The same over the plan that its edges share.
    #[tactic(auto, using(crate::proofs::NetworkLemmas::opening))]
    fn with_plan(alloc: Global, plan: SharedPlan, entries: usize) -> Result<Parts, NoMemory>
        requires { IsChecked plan }
        ensures plan { IfOk result (λ parts. parts.plan ≡ plan) }
        ensures state { IfOk result (λ parts. network_seen parts ≡ empty_network plan) }
        ensures trace { IfOk result (λ parts. parts.trace ≡ []) }
        ensures going { IfOk result (λ parts. parts.failed ≡ false) }
    {
        let count = plan.edges.len();
        let pipes = Pipes::open(alloc, count)?;
        let ledger = Ledger::with_capacity(alloc, entries)?;
        match open_edges(alloc, plan.shared(), count) {
            Ok(edges) => Ok(Parts {
                plan,
                edges,
                pipes,
                packets: Packets::new(alloc),
                entered: 0,
                ledger,
                failed: false,
            }),
            Err(fault) => Err(fault),
        }
    }

    /// The limit that stops each event that may send a packet, or each that may not, where there is one.
    #[tactic(auto, unfolding(crate::specs::Weight::stop_at))]
    pub fn refusal_by(&self, sends: bool) -> Option<NetStop>
        ensures { (event : Event) → may_send event ≡ sends → result ≡ stop_at self.now.trace (length (network_seen self.now).under_way) event }
    {
        let weight = self.ledger.weight();
        if weight > MOST_WEIGHT {
            return Some(NetStop::TooMuch {
                weight,
                event: self.ledger.next_event(),
            });
        }
        let count = self.under_way();
        if sends && count >= MOST_PACKETS {
            return Some(NetStop::Crowded {
                count,
                event: self.ledger.next_event(),
            });
        }
        None
    }

    /// Tells an event, and then does it.
    pub fn work(&mut self, alloc: Global, event: &Event) -> Result<(), NoMemory>
        requires { IsEventOf self.old.plan event.now }
        ensures keeps { KeepsNetwork self.old self.new }
        ensures step { OnOk result (HasStepped self.old self.new (step self.old.plan (network_seen self.old) event.now)) }
    {
        self.tell(Entry::Did {
            event: event.copy(alloc)?,
        })?;
        match *event {
            Event::Connect { from, to } => self.connect(alloc, from, to),
            Event::Deliver { from, to, count } => self.deliver(alloc, from, to, count),
            Event::Lose { edge, peer } => self.lose(alloc, edge, peer),
            Event::Restart { edge } => self.restart(alloc, edge),
            Event::Tick => self.tick(alloc),
            Event::Frame { circuit, ref bytes } => self.frame(alloc, circuit, bytes.copy(alloc)?),
            Event::Arrive { packet } => self.arrive(alloc, packet),
            Event::Discard { packet } => self.discard(packet),
            Event::Again { packet } => self.again(alloc, packet),
            _ => self.answer(alloc, event),
        }
    }

    /// Tells the event of a frame that enters at a circuit, and then does it. The frame's octets are kept.
    pub fn work_frame(
        &mut self,
        alloc: Global,
        circuit: CircuitId,
        bytes: Octets,
    ) -> Result<(), NoMemory>
        requires { IsEventOf self.old.plan (Event.Frame circuit bytes) }
        ensures keeps { KeepsNetwork self.old self.new }
        ensures step { OnOk result (HasStepped self.old self.new (step self.old.plan (network_seen self.old) (Event.Frame circuit bytes))) }
    {
        self.tell(Entry::Did {
            event: Event::Frame {
                circuit,
                bytes: bytes.copy(alloc)?,
            },
        })?;
        self.frame(alloc, circuit, bytes)
    }

    // Adds an entry to the trace. Where the kind of the entry is known, nothing asks for it.
    #[inline(always)]
    #[tactic(auto, unfolding(crate::specs::Lists::network_seen))]
    pub(crate) fn tell(&mut self, entry: Entry) -> Result<(), NoMemory>
        ensures keeps { KeepsNetwork self.old self.new }
        ensures state { network_seen self.new ≡ network_seen self.old }
        ensures room { HasRoom self.old → HasRoom self.new }
        ensures made { OnOk result (HasRoom self.new) }
        ensures more { OnOk result (length self.new.trace ≡ length self.old.trace + 1) }
        ensures time { OnOk result (self.new.packets.ticks < length self.new.trace) }
        ensures counts { (self.new.packets.last ≡ self.old.packets.last) × (self.new.entered ≡ self.old.entered) }
        ensures ok { OnOk result (self.new.trace ≡ self.old.trace ++ entry ∷ []) }
        ensures err { OnErr result (self.new.trace ≡ self.old.trace) }
    {
        self.ledger.add(entry)
    }

    /// Memory was refused.
    pub fn has_failed(&self) -> bool
        ensures { result ≡ self.now.failed }
    {
        self.failed
    }

    /// The network is given up, since memory was refused.
    pub fn fail(&mut self)
        ensures plan { self.new.plan ≡ self.old.plan }
        ensures failed { self.new.failed ≡ true }
    {
        self.failed = true;
    }

    // An edge takes an input, over a link that takes every call.
    pub(crate) fn drive(
        &mut self,
        alloc: Global,
        me: EdgeId,
        input: Input<'_>,
    ) -> Result<Effects, NoMemory>
        requires me { me.0 < length self.old.plan.edges }
        requires range { IsInRange input }
        ensures keeps { KeepsNetwork self.old self.new }
        ensures room { HasRoom self.old → HasRoom self.new }
        ensures last { self.new.packets.last ≡ self.old.packets.last }
        ensures driven { IfOk result (HasDriven me self.old self.new (edge_step self.old.plan taken_all input.entry (begin_at (network_seen self.old) me))) }
        ensures fit { IfOk result (λ effects. AllFit self.old.plan effects.list) }
    {
        work_of(alloc, &mut self.edges[me.0 as usize], input)
    }

    /// The plan.
    pub fn plan(&self) -> &Plan
        ensures { result.now ≡ self.now.plan }
    {
        &self.plan
    }

    /// The trace of what has happened.
    pub fn trace(&self) -> &Trace
        ensures { result.now ≡ self.now.trace }
    {
        self.ledger.trace()
    }

    /// The trace of what has happened.
    pub fn into_trace(self) -> Trace
        ensures { result ≡ self.trace }
    {
        self.ledger.into_trace()
    }

    /// The edge with this place, in its part of the network's state; `None` exactly where the plan has no such edge.
    #[tactic(auto, unfolding(crate::specs::Lists::network_seen))]
    pub fn edge(&self, id: EdgeId) -> Option<&Edge>
        ensures some { IsSome result ↔ (id.0 < length self.now.plan.edges) }
        ensures part { IfSome result (λ edge. seen_edge edge.now ≡ edge_at (network_seen self.now) id) }
        ensures plan { IfSome result (λ edge. edge.now.plan ≡ self.now.plan) }
        ensures place { IfSome result (λ edge. edge.now.me ≡ id) }
    {
        self.edges.get(id.0 as usize)
    }

    /// How many packets are under way, counted up to 2^32 - 1.
    #[tactic(auto, unfolding(crate::specs::Lists::network_seen))]
    pub fn under_way(&self) -> u32
        ensures { result ≡ min (length (network_seen self.now).under_way) (2 ^ 32 - 1) }
    {
        u32::try_from(self.packets.len()).unwrap_or(u32::MAX)
    }

    /// What the trace weighs: 64 for each entry, and the octets of the frame, packet or PDU that it holds, counted up to
    /// 2^64 - 1.
    pub fn weight(&self) -> u64
        ensures { result ≡ weight_of self.now.trace }
    {
        self.ledger.weight()
    }
}

// The work of an edge on an input, over a link that takes every call.
pub(crate) fn work_of(alloc: Global, edge: &mut Edge, input: Input<'_>) -> Result<Effects, NoMemory>
    requires range { IsInRange input }
    ensures plan { edge.new.plan ≡ edge.old.plan }
    ensures me { edge.new.me ≡ edge.old.me }
    ensures worked { IfOk result (HasWorked edge.new (edge_step edge.old.plan taken_all input.entry (beginning (seen_edge edge.old) []))) }
    ensures fit { IfOk result (λ effects. AllFit edge.old.plan effects.list) }
{
    let mut link = PsnLink::new();
    match edge.take(alloc, input, &mut link) {
        Ok(effects) => {
            link.close();
            Ok(effects)
        }
        Err(_) => Err(NoMemory),
    }
}
