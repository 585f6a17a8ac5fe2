//! What is seen of a network but for the packets under way.
ghost use Rattle.std.specs.Prelude.{◌≡◌, ◌<◌, [], false, true, option_copied, replicate, unwrap_or, IfOk, OnOk};
ghost use Rattle.seen_network.specs.Seen.{Seen, delivers, end_goes, happened, nothing_seen, said_towards, session_told, told_by_itself, with_on, with_standing, with_up, without_edge};
ghost use Rattle.seen_state.specs.{PeerEnd.{no_end}, Placed.{IsEventWithin, IsWithin}};
ghost use Rattle.seen_state.specs.SeenEdges.{ShowsEdges, end_seen, shown_with, sizes_of, up_at};

use crate::peer_end::PeerEnd;
use crate::seen_edge::SeenEdge;
use crate::sizes::Sizes;
use net_base::{CircuitId, EdgeId, Entry, Event, NoMemory, Plan, StateName, WireId};
use std::alloc::Global;
use std::marker::Model;

/// What is seen of a network but for the packets under way: of each edge its ends and the wires that are up, and the circuits that
/// are on.
#[derive(Drop)]
pub struct SeenEdges {
    sizes: Sizes,
    edges: Vec<SeenEdge>,
    on: Vec<bool>,
}

impl Model for SeenEdges {
    ghost use Rattle.seen_state.specs.SeenEdges.{IsWhole, SeenEdgeLists};

    ghost Value = { SeenEdgeLists };

    ghost view = { λ s. record { sizes = s.sizes; edges = s.edges.items; on = s.on.items } };

    ghost invariant = { λ s. IsWhole (record { sizes = s.sizes; edges = s.edges.items; on = s.on.items }) };
}

impl SeenEdges {
    /// Both ends of a connection stand from now on.
    pub fn connect(&mut self, from: EdgeId, to: EdgeId)
        requires from { from.0 < self.old.sizes.edges }
        requires to { to.0 < self.old.sizes.edges }
        ensures sizes { self.new.sizes ≡ self.old.sizes }
        ensures shows { (seen : Seen) → ShowsEdges self.old seen → ShowsEdges self.new (with_standing to.0 from.0 true (with_standing from.0 to.0 true seen)) }
    {
        self.stand(from, to);
        self.stand(to, from);
    }

    // An end stands from now on.
    fn stand(&mut self, edge: EdgeId, peer: EdgeId)
        requires edge { edge.0 < self.old.sizes.edges }
        requires peer { peer.0 < self.old.sizes.edges }
        ensures sizes { self.new.sizes ≡ self.old.sizes }
        ensures shows { (seen : Seen) → ShowsEdges self.old seen → ShowsEdges self.new (with_standing edge.0 peer.0 true seen) }
    {
        self.edges[edge.0 as usize].ends[peer.0 as usize].stand();
    }

    /// An end goes, with what was on its way to it and what it held.
    pub fn end(&mut self, edge: EdgeId, peer: EdgeId)
        requires edge { edge.0 < self.old.sizes.edges }
        requires peer { peer.0 < self.old.sizes.edges }
        ensures sizes { self.new.sizes ≡ self.old.sizes }
        ensures shows { (seen : Seen) → ShowsEdges self.old seen → ShowsEdges self.new (end_goes edge.0 peer.0 seen) }
    {
        self.edges[edge.0 as usize].ends[peer.0 as usize].go();
    }

    /// An edge puts octets towards a peer; where the peer's end does not stand they go nowhere.
    pub fn say(&mut self, from: EdgeId, to: EdgeId, octets: &[u8]) -> Result<(), NoMemory>
        requires from { from.0 < self.old.sizes.edges }
        requires to { to.0 < self.old.sizes.edges }
        ensures sizes { self.new.sizes ≡ self.old.sizes }
        ensures shows { OnOk result ((seen : Seen) → ShowsEdges self.old seen → ShowsEdges self.new (said_towards from.0 to.0 octets.now seen)) }
    {
        self.edges[to.0 as usize].ends[from.0 as usize].say(octets)
    }

    /// The first `count` octets on their way from an edge to another one are taken, or all where there are fewer.
    pub fn deliver(&mut self, from: EdgeId, to: EdgeId, count: u16)
        requires from { from.0 < self.old.sizes.edges }
        requires to { to.0 < self.old.sizes.edges }
        ensures sizes { self.new.sizes ≡ self.old.sizes }
        ensures shows { (seen : Seen) → ShowsEdges self.old seen → ShowsEdges self.new (delivers from.0 to.0 count seen) }
    {
        self.edges[to.0 as usize].ends[from.0 as usize].take(count as usize);
    }

    /// An edge is as before the first entry, but for its circuits.
    pub fn restart(&mut self, edge: EdgeId)
        requires edge { edge.0 < self.old.sizes.edges }
        ensures sizes { self.new.sizes ≡ self.old.sizes }
        ensures shows { (seen : Seen) → ShowsEdges self.old seen → ShowsEdges self.new (without_edge edge.0 seen) }
    {
        self.edges[edge.0 as usize].restart();
    }

    /// A wire is up at an edge, or down.
    pub fn set_up(&mut self, edge: EdgeId, wire: WireId, up: bool)
        requires edge { edge.0 < self.old.sizes.edges }
        requires wire { wire.0 < self.old.sizes.wires }
        ensures sizes { self.new.sizes ≡ self.old.sizes }
        ensures shows { (seen : Seen) → ShowsEdges self.old seen → ShowsEdges self.new (with_up edge.0 wire.0 up seen) }
    {
        self.edges[edge.0 as usize].up[wire.0 as usize] = up;
    }

    /// A circuit is on, or off.
    pub fn set_on(&mut self, circuit: CircuitId, on: bool)
        requires circuit { circuit.0 < self.old.sizes.circuits }
        ensures sizes { self.new.sizes ≡ self.old.sizes }
        ensures shows { (seen : Seen) → ShowsEdges self.old seen → ShowsEdges self.new (with_on circuit.0 on seen) }
    {
        self.on[circuit.0 as usize] = on;
    }

    /// An event applied.
    #[tactic(auto, using(crate::proofs::SeenEdgesLemmas::any_copies))]
    pub fn happen(&mut self, event: &Event)
        requires { IsEventWithin self.old.sizes event.now }
        ensures sizes { self.new.sizes ≡ self.old.sizes }
        ensures shows { (seen : Seen) → ShowsEdges self.old seen → ShowsEdges self.new (happened event.now seen) }
    {
        match *event {
            Event::Connect { from, to } => self.connect(from, to),
            Event::Deliver { from, to, count } => self.deliver(from, to, count),
            Event::Lose { edge, peer } => self.end(edge, peer),
            Event::Restart { edge } => self.restart(edge),
            Event::Circuit { circuit, on } => self.set_on(circuit, on),
            Event::Tick => {}
            Event::Frame { .. } => {}
            Event::Arrive { .. } => {}
            Event::Discard { .. } => {}
            Event::Again { .. } => {}
            Event::Wire { .. } => {}
            Event::Status { .. } => {}
            Event::Priority { .. } => {}
            Event::Ping { .. } => {}
        }
    }

    /// An entry is told.
    #[tactic(auto, using(crate::proofs::SeenEdgesLemmas::any_copies))]
    pub fn tell(&mut self, entry: &Entry) -> Result<(), NoMemory>
        requires { IsWithin self.old.sizes entry.now }
        ensures sizes { self.new.sizes ≡ self.old.sizes }
        ensures shows { OnOk result ((seen : Seen) → ShowsEdges self.old seen → ShowsEdges self.new (told_by_itself entry.now seen)) }
    {
        match *entry {
            Entry::Said {
                from,
                to,
                ref bytes,
            } => self.say(from, to, bytes.as_slice()),
            Entry::Session { edge, peer, state } => {
                self.session(edge, peer, state);
                Ok(())
            }
            Entry::Wire { edge, wire, down } => {
                self.set_up(edge, wire, down.is_none());
                Ok(())
            }
            Entry::Did { .. } => Ok(()),
            Entry::Idle => Ok(()),
            Entry::In { .. } => Ok(()),
            Entry::Sent { .. } => Ok(()),
            Entry::Copied { .. } => Ok(()),
            Entry::Aged { .. } => Ok(()),
            Entry::Left { .. } => Ok(()),
            Entry::Dropped { .. } => Ok(()),
            Entry::Pong { .. } => Ok(()),
        }
    }

    // A session moves to a state; one that has ended takes its end with it.
    fn session(&mut self, edge: EdgeId, peer: EdgeId, state: StateName)
        requires edge { edge.0 < self.old.sizes.edges }
        requires peer { peer.0 < self.old.sizes.edges }
        ensures sizes { self.new.sizes ≡ self.old.sizes }
        ensures shows { (seen : Seen) → ShowsEdges self.old seen → ShowsEdges self.new (session_told edge.0 peer.0 state seen) }
    {
        match state {
            StateName::Ended(_) => self.end(edge, peer),
            StateName::NonExistent => {}
            StateName::Initialized => {}
            StateName::OpenSent => {}
            StateName::OpenRec => {}
            StateName::Operational => {}
        }
    }

    // An edge's end of its connection with a peer; `None` where there is no such edge or peer.
    pub(crate) fn end_of(&self, edge: EdgeId, peer: EdgeId) -> Option<&PeerEnd>
        ensures { unwrap_or (option_copied result) no_end ≡ end_seen self.now edge.0 peer.0 }
    {
        match self.edges.get(edge.0 as usize) {
            Some(row) => row.ends.get(peer.0 as usize),
            None => None,
        }
    }

    // Whether a wire is up at an edge, where one is told.
    #[tactic(auto, unfolding(crate::specs::SeenEdges::shown_with))]
    pub(crate) fn is_up_at(&self, edge: Option<EdgeId>, wire: usize) -> bool
        ensures { result ≡ up_at (shown_with self.now []) wire edge }
    {
        let Some(edge) = edge else {
            return false;
        };
        match self.edges.get(edge.0 as usize) {
            Some(row) => match row.up.get(wire) {
                Some(up) => *up,
                None => false,
            },
            None => false,
        }
    }

    /// Whether a circuit is on.
    #[tactic(auto, unfolding(crate::specs::SeenEdges::shown_with))]
    pub fn is_on(&self, circuit: CircuitId) -> bool
        ensures { (seen : Seen) → ShowsEdges self.now seen → result ≡ seen.on circuit.0 }
    {
        match self.on.get(circuit.0 as usize) {
            Some(on) => *on,
            None => true,
        }
    }

    /// What is seen of a plan's network before the first entry.
    #[tactic(auto, using(crate::proofs::OpenLemmas::opened))]
    pub fn new(alloc: Global, plan: &Plan) -> Result<SeenEdges, NoMemory>
        ensures sizes { IfOk result (λ seen_edges. seen_edges.sizes ≡ sizes_of plan.now) }
        ensures shows { IfOk result (λ seen_edges. ShowsEdges seen_edges nothing_seen) }
    {
        let sizes = Sizes {
            edges: plan.edges.len(),
            wires: plan.wires.len(),
            circuits: plan.circuits.len(),
        };
        let edges = new_edges(alloc, sizes.edges, sizes.wires)?;
        let on = vec![in alloc; true; sizes.circuits]?;
        Ok(SeenEdges { sizes, edges, on })
    }
}

// So many edges as they are before the first entry.
#[tactic(auto, using(crate::proofs::RowLemmas::replicate_steps))]
fn new_edges(alloc: Global, count: usize, wires: usize) -> Result<Vec<SeenEdge>, NoMemory>
    ensures { IfOk result (λ edges. edges.items ≡ replicate count (record { ends = replicate count no_end; up = replicate wires false })) }
{
    let mut edges = Vec::new(alloc);
    for _edge in 0..count {
        edges.push(SeenEdge::new(alloc, count, wires)?)?;
    }
    Ok(edges)
}
