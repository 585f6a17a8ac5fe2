//! One provider edge.
ghost use Rattle.std.specs.Prelude.{◌≡◌, ◌<◌, ◌≤◌, ◌↔◌, ◌⊎◌, Some, None, true, false, [], is_some, length, IfOk, IfErr, IfSome, IsNone, IsErrOf, OnOk, position};
ghost use Rattle.std.specs.List.{find};
ghost use Rattle.net_base.specs.{plan.Accepted.{IsChecked}, plan.Places.{service_row}};
ghost use Rattle.pw_messages.specs.LinkAnswers.{Agrees, Answers};
ghost use Rattle.hvpls_spokes.specs.Port.{ports_of};
ghost use Rattle.pw_signalling.specs.AnyEnd.{end_of};
ghost use Rattle.edge_model.specs.{EndPlaces.{end_places, ends_here, is_end_of_wire}, Labels.{label_to_give}, Role.{down_at}};
ghost use Rattle.edge_model.specs.{State.{addresses_of, empty_edge, end_at, has_end, is_on}, Step.{edge_step}, Synced.{InSync}};
ghost use Rattle.edge_model.specs.Work.{GoesOn, beginning};
ghost use Rattle.edge_forwarding.specs.Domain.{age_of};
ghost use Rattle.provider_edge.specs.{Bounds.{IsBounded}, EndOf.{is_of_segment}, Said.{AllFit, TellsTaken}, Taking.{IsInRange, StaysLocal}};
ghost use Rattle.provider_edge.specs.{AtWork.{IsBegun, Takes, TakesBy}, Lists.{seen, worked}};
ghost use Rattle.peer_dialogue.specs.Peering.{held_octets, session_name};

mod administration;
mod frames;
mod labels;
mod mending;
mod opening;
mod packets;
mod session;
mod signalling;

use crate::EdgeStop;
use crate::end_marks::EndMarks;
use crate::sessions::Sessions;
use crate::spokes::Spokes;
use edge_forwarding::Forwarding;
use edge_model::{Effects, EndPlace, Input};
use net_base::{
    CircuitId, Down, EdgeId, Link, List, NoMemory, Plan, SegKey, ServiceId, StateName, WireId,
};
use peer_dialogue::AtWork;
use pw_ends::PwEnds;
use pw_signalling::PwEnd;
use std::alloc::Global;
use std::marker::Model;
use std::rc::Rc;
use vsi_bridge::Bridge;

/// A provider edge of a plan (RFC 4762 section 4): what it keeps of each neighbour, the ends of its pseudowires, what was set
/// of its wires, how often it has pinged each, the spokes that it has chosen, and what it forwards frames by. Contracts see it as lists by the plan's
/// places, and by `seen` as the state of one edge.
#[derive(Drop)]
pub struct Edge {
    plan: Rc<Plan>,
    me: EdgeId,
    peerings: Sessions,
    ends: PwEnds,
    wires_on: Vec<bool>,
    bits: Vec<u8>,
    priorities: Vec<u8>,
    pings: Vec<u16>,
    spokes: Spokes,
    forwarding: Forwarding,
    stopped: bool,
    marks: Option<EndMarks>,
}

impl Model for Edge {
    ghost use Rattle.provider_edge.specs.{Invariant.{IsEdge}, Lists.{EdgeLists}};

    ghost Value = { EdgeLists };

    ghost view = { λ e. record { plan = e.plan.value; me = e.me; peerings = e.peerings; ends = e.ends; wires_on = e.wires_on.items; bits = e.bits.items; priorities = e.priorities.items; pings = e.pings.items; spokes = e.spokes; forwarding = e.forwarding; stopped = e.stopped; marks = e.marks } };

    ghost invariant = { λ e. IsEdge (record { plan = e.plan.value; me = e.me; peerings = e.peerings; ends = e.ends; wires_on = e.wires_on.items; bits = e.bits.items; priorities = e.priorities.items; pings = e.pings.items; spokes = e.spokes; forwarding = e.forwarding; stopped = e.stopped; marks = e.marks }) };
}

impl Edge {
    /// The edge of a plan before its first input, with a copy of the plan: every circuit and every wire is on, nothing is learned, and no
    /// connection stands.
    pub fn open(alloc: Global, plan: &Plan, me: EdgeId) -> Result<Edge, NoMemory>
        requires checked { IsChecked plan.now }
        requires me { me.0 < length plan.now.edges }
        ensures plan { IfOk result (λ edge. edge.plan ≡ plan.now) }
        ensures me { IfOk result (λ edge. edge.me ≡ me) }
        ensures empty { IfOk result (λ edge. seen edge ≡ empty_edge edge.plan me) }
        ensures stopped { IfOk result (λ edge. edge.stopped ≡ false) }
    {
        let plan = Rc::new(alloc, plan.copy(alloc)?)?;
        Edge::share(alloc, plan, me)
    }

    /// The same over a plan that other edges hold too.
    pub fn share(alloc: Global, plan: Rc<Plan>, me: EdgeId) -> Result<Edge, NoMemory>
        requires checked { IsChecked plan.value }
        requires me { me.0 < length plan.value.edges }
        ensures plan { IfOk result (λ edge. edge.plan ≡ plan.value) }
        ensures me { IfOk result (λ edge. edge.me ≡ me) }
        ensures empty { IfOk result (λ edge. seen edge ≡ empty_edge edge.plan me) }
        ensures stopped { IfOk result (λ edge. edge.stopped ≡ false) }
    {
        match PwEnds::open(alloc, &plan, me) {
            Ok(ends) => Edge::with_ends(alloc, plan, me, ends),
            Err(fault) => Err(fault),
        }
    }

    /// Takes an input, and answers all that the edge gives out on it. What does not apply is idle, and changes nothing:
    /// for `Connected` an edge to which no segment joins this one, or a peer whose end stands; for `Octets` and `Lost` a peer
    /// whose end does not stand; for `Frame` a circuit of another edge or one that is off; for `Circuit` a circuit of
    /// another edge or one that is so already; for `Wire` a wire that does not pass the edge or one that is so already; for
    /// `Status` a wire of which the edge is no terminal edge, or bits that are set already; for `Priority` a wire that is no
    /// spoke from this edge, or a priority that is set already; for `Ping` a wire of which the edge is no terminal edge, or whose
    /// end there does not advertise its label, is not bound, or has picked no control channel (RFC 5085 section 7). `Restart`,
    /// `Tick` and `Packet` always apply. The bits of a `Status` are at most 31.
    ///
    /// At a switching point of a wire, what one side tells goes on to the other side, with the edge's own point added (RFC 6073 section
    /// 7). A mapping that has passed the edge before, or three switching points, is not taken (section 7.6): the binding of that end
    /// goes, and the label is released. A new status goes on by a Notification, where the mapping to the other side has one (section
    /// 10); for any other change the label is withdrawn, and advertised again once it is released. Withdrawals of addresses (RFC 4762
    /// section 6.2) go on in pieces of at most 30, and packets under the label of the other side, with a TTL that is one less
    /// (RFC 6073 section 4).
    ///
    /// Whatever octets the neighbours send, and whatever the links answer, the plan bounds what the edge holds: at most one connection
    /// with each edge of the plan, of which at most 4,100 octets are held; at most one binding at each of its own ends; and at most
    /// 4,096 addresses of each service.
    ///
    /// `NoMemory` where memory was refused; from then on the edge is given up, and answers `Stopped` to every input.
    pub fn take<L: Link>(
        &mut self,
        alloc: Global,
        input: Input<'_>,
        link: &mut L,
    ) -> Result<Effects, EdgeStop>
        requires range { IsInRange input }
        ensures plan { self.new.plan ≡ self.old.plan }
        ensures me { self.new.me ≡ self.old.me }
        ensures step { IfOk result (λ effects. (told : Answers) → Agrees told (L.calls link.new)
            → worked self.new (L.calls link.new) effects ≡ edge_step self.old.plan told input.entry (beginning (seen self.old) (L.calls link.old))) }
        ensures calls { GoesOn (L.calls link.old) (L.calls link.new) }
        ensures said { IfOk result (λ effects. TellsTaken (L.calls link.old) (L.calls link.new) effects.list) }
        ensures fit { IfOk result (λ effects. AllFit self.old.plan effects.list) }
        ensures local { IfOk result (λ effects. StaysLocal self.old.plan (seen self.old) input.entry effects.list) }
        ensures refused { IsErrOf result EdgeStop.Stopped ↔ (self.old.stopped ≡ true) }
        ensures stopped { IfErr result (λ stop. self.new.stopped ≡ true) }
        ensures going { IfOk result (λ effects. self.new.stopped ≡ false) }
        ensures bounded { IsBounded self.new.plan (seen self.new) }
    {
        if self.stopped {
            self.bounded();
            return Err(EdgeStop::Stopped);
        }
        self.stopped = true;
        let mut effects = Effects {
            idle: false,
            list: List::new(alloc),
        };
        let mut work = AtWork {
            alloc,
            link,
            effects: &mut effects,
        };
        match self.work(input, &mut work) {
            Ok(()) => {
                self.bounded();
                self.stopped = false;
                Ok(effects)
            }
            Err(NoMemory) => {
                self.bounded();
                Err(EdgeStop::NoMemory)
            }
        }
    }

    // The plan bounds what the edge holds. The call does nothing: its clause says what always holds.
    fn bounded(&self)
        ensures { IsBounded self.now.plan (seen self.now) }
    {
        self.forwarding.bounded();
    }

    // What the edge makes of an input, on which nothing was given out before. Until it is done nothing is said of what was told
    // last of the wires, so the edge counts as stopped.
    #[inline(always)]
    fn work<L: Link>(&mut self, input: Input<'_>, work: &mut AtWork<'_, L>) -> Result<(), NoMemory>
        requires range { IsInRange input }
        requires begun { IsBegun self.old work.old }
        requires synced { InSync self.old.plan (seen self.old) }
        ensures goes { Takes L.calls self.old work.old self.new work.new }
        ensures step { OnOk result (TakesBy L.calls self.old work.old self.new work.new input.entry) }
    {
        match input {
            Input::Connected { peer } => self.connected(peer, work),
            Input::Octets { peer, bytes } => self.octets(peer, bytes, work),
            Input::Lost { peer } => self.lost(peer, work),
            Input::Restart => {
                self.restart();
                Ok(())
            }
            Input::Tick => self.tick(work),
            Input::Frame { circuit, bytes } => self.frame(circuit, bytes, work),
            Input::Packet { bytes } => self.packet(bytes, work),
            Input::Circuit { circuit, on } => self.circuit(circuit, on, work),
            Input::Wire { wire, on } => self.wire(wire, on, work),
            Input::Status { wire, bits } => self.status(wire, bits, work),
            Input::Priority { wire, priority } => { self.priority(wire, priority, work) }
            Input::Ping { wire } => self.ping(wire, work),
        }
    }

    /// Whether memory was refused, so that the edge takes nothing more.
    pub fn is_stopped(&self) -> bool
        ensures { result ≡ self.now.stopped }
    {
        self.stopped
    }

    /// The state of the session with a peer (RFC 5036 section 2.5.4): `NonExistent` exactly where the edge's end of their
    /// connection does not stand.
    #[tactic(auto, unfolding(crate::specs::Lists::seen))]
    pub fn session(&self, peer: EdgeId) -> StateName
        ensures { result ≡ session_name ((seen self.now).peering peer.0) }
    {
        self.peerings.state(peer)
    }

    /// Whether the edge's end of its connection with a peer stands.
    #[inline(always)]
    #[tactic(auto, unfolding(crate::specs::Lists::seen))]
    pub fn has_end(&self, peer: EdgeId) -> bool
        ensures { result ≡ has_end (seen self.now) peer }
    {
        self.peerings.has(peer)
    }

    /// How many octets of a peer are held that are no whole PDU yet: at most 4,100, and none where the edge's end of their
    /// connection does not stand.
    #[tactic(auto, unfolding(crate::specs::Lists::seen))]
    pub fn held(&self, peer: EdgeId) -> usize
        ensures count { result ≡ length (held_octets ((seen self.now).peering peer.0)) }
        ensures within { result ≤ 4100 }
    {
        self.peerings.held(peer)
    }

    /// The edge's end of a pseudowire at a segment of a wire; `None` exactly where the edge has no end of that segment. A switching
    /// point of the wire has two ends, one at each of the two segments that meet there (RFC 6073 section 4).
    pub fn end(&self, key: SegKey) -> Option<&PwEnd>
        ensures none { IsNone result ↔ (find (is_of_segment key) (end_places self.now.plan self.now.me) ≡ None) }
        ensures state { IfSome result (λ end. IfSome (find (is_of_segment key) (end_places self.now.plan self.now.me)) (λ place. end_of end.now ≡ end_at (seen self.now) place)) }
    {
        match slot_at(self.ends.places(), key) {
            Some(slot) => Some(self.ends.end(slot)),
            None => None,
        }
    }

    /// Why the edge's end of a wire does not forward; `None` exactly where it forwards (RFC 8077 sections 6 and 6.3). The edge
    /// is a terminal edge of the wire.
    pub fn down(&self, wire: WireId) -> Option<Down>
        requires { ends_here self.now.plan self.now.me wire ≡ true }
        ensures { IfSome (find (is_end_of_wire wire) (end_places self.now.plan self.now.me)) (λ place. result ≡ down_at self.now.plan (seen self.now) place) }
    {
        match self.ends.terminal(wire) {
            Some(slot) => self.down_of(slot),
            None => None,
        }
    }

    /// The label that the edge gives next, 16 to 1048576 (RFC 3032 section 2.1); at 1048576 it gives labels again that are free.
    #[tactic(auto, unfolding(crate::specs::Lists::seen))]
    pub fn next_label(&self) -> u32
        ensures { result ≡ (seen self.now).next_label }
    {
        self.ends.next_label()
    }

    /// The bridge of a service, over its ports at the edge, with its age limit and all that it has learned; `None` exactly where
    /// the plan has no such service, or the service no port at the edge.
    pub fn bridge(&self, service: ServiceId) -> Option<&Bridge>
        ensures none { IsNone result ↔ ((service_row self.now.plan service ≡ None) ⊎ (ports_of self.now.plan service self.now.me ≡ [])) }
        ensures learned { IfSome result (λ bridge. bridge.now.entries ≡ addresses_of (seen self.now) service) }
        ensures ports { IfSome result (λ bridge. bridge.now.ports ≡ ports_of self.now.plan service self.now.me) }
        ensures age { IfSome result (λ bridge. age_of self.now.plan service ≡ Some bridge.now.age) }
    {
        self.forwarding.bridge(service)
    }

    /// Whether a circuit of the plan is on.
    #[inline(always)]
    #[tactic(auto, using(crate::proofs::ForwardLemmas::circuit_read))]
    pub fn is_on(&self, circuit: CircuitId) -> bool
        requires { circuit.0 < length self.now.plan.circuits }
        ensures { result ≡ is_on (seen self.now) circuit }
    {
        self.forwarding.is_on(circuit)
    }

    /// Whether a wire of the plan is on at the edge.
    #[tactic(auto, unfolding(crate::specs::Lists::seen))]
    pub fn is_wire_on(&self, wire: WireId) -> bool
        requires { wire.0 < length self.now.plan.wires }
        ensures { result ≡ (seen self.now).wire_on wire.0 }
    {
        self.wires_on[wire.0 as usize]
    }

    /// The failure bits that are set of the edge's end of a wire of the plan, 0 to 31 (RFC 4446 section 3.5).
    #[inline(always)]
    #[tactic(auto, unfolding(crate::specs::Lists::seen))]
    pub fn bits_of(&self, wire: WireId) -> u8
        requires { wire.0 < length self.now.plan.wires }
        ensures bits { result ≡ (seen self.now).bits wire.0 }
        ensures small { result ≤ 31 }
    {
        self.bits[wire.0 as usize]
    }

    /// The priority number of the spoke on a wire of the plan, 0 to 255: of several usable ones that with the least is chosen (RFC
    /// 6870).
    #[tactic(auto, unfolding(crate::specs::Lists::seen))]
    pub fn priority_of(&self, wire: WireId) -> u8
        requires { wire.0 < length self.now.plan.wires }
        ensures { result ≡ (seen self.now).priority wire.0 }
    {
        self.priorities[wire.0 as usize]
    }

    /// Whether the edge has a label to give: the next one, or where that is 1048576 one that is free again (RFC 3032 section 2.1).
    #[tactic(auto, unfolding(crate::specs::Lists::seen))]
    pub fn has_label(&self) -> bool
        ensures { result ≡ is_some (label_to_give (seen self.now)) }
    {
        self.ends.has_label()
    }

    /// How many ticks have passed; the count stays at 2^64 - 1 once it is there.
    #[tactic(auto, using(crate::proofs::ForwardLemmas::ticks_read))]
    pub fn ticks(&self) -> u64
        ensures { result ≡ (seen self.now).ticks }
    {
        self.forwarding.ticks()
    }

    /// Where the edge has ends of pseudowires, by slots: in the plan's order of the wires, and in that of the segments of each.
    pub fn places(&self) -> &[EndPlace]
        ensures places { result.now ≡ end_places self.now.plan self.now.me }
        ensures slots { result.now ≡ self.now.ends.places }
    {
        self.ends.places()
    }

    /// The plan.
    pub fn plan(&self) -> &Plan
        ensures { result.now ≡ self.now.plan }
    {
        &self.plan
    }

    /// The edge's place in the plan.
    pub fn me(&self) -> EdgeId
        ensures { result ≡ self.now.me }
    {
        self.me
    }
}

// The first of the places that is at a segment. A search by a closure is proved where it stands alone.
fn slot_at(places: &[EndPlace], key: SegKey) -> Option<usize>
    ensures { result ≡ position (is_of_segment key) places.now }
{
    places.iter().position(|place| place.wire == key.wire && place.segment == key.segment)
}
