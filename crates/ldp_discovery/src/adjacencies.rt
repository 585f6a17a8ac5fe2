//! The Hello adjacencies of one edge.
ghost use Rattle.std.specs.Prelude.{◌≡◌, ◌≤◌, ◌<◌, ◌++◌, ℕ, List, [], Some, length, drop, map, slice_get, slice_index_or, slice_set, false, IfOk, OnErr};
ghost use Rattle.net_base.specs.{plan.Accepted.{IsChecked}, plan.Paths.{edge_address}};
ghost use Rattle.ldp_discovery.specs.Adjacencies.{Hears, IsAfter, adjacencies_after, id_behind, is_joined_to, known_of, lapses, neighbours_from};
ghost use Rattle.ldp_discovery.specs.Hellos.{hello_octets};
ghost use Rattle.ldp_discovery.specs.Live.{Deed, said, ticked, adjacency_aged, is_adjacency_live, live, hold_proposed, refreshed, unknown, AreHolds};

use crate::adjacency::{Adjacency, UNKNOWN, adjacency_lives, tick_later};
use crate::heard::Heard;
use crate::hello::{hold_heard, put_hello};
use crate::lapsed::{Lapsed, MOST_EDGES};
use crate::neighbour::Neighbour;
use net_base::{EdgeId, NoMemory, Plan};
use net_values::Addr;
use std::alloc::Global;
use std::marker::Model;

/// The Hello adjacencies of one edge with the other edges of its plan (RFC 5036 sections 2.4.2 and 2.5.5). Contracts see lists by
/// the plan's places. Ticks stand for seconds.
#[derive(Debug, Drop)]
pub struct Adjacencies {
    address: Addr,
    next_id: u32,
    neighbours: Vec<Neighbour>,
    known: Vec<Adjacency>,
}

impl Model for Adjacencies {
    ghost use Rattle.ldp_discovery.specs.Adjacencies.{AdjacencyLists, AreWhole};

    ghost Value = { AdjacencyLists };

    ghost view = { λ a. record { address = a.address; next_id = a.next_id; neighbours = a.neighbours.items; known = a.known.items } };

    ghost invariant = { λ a. AreWhole (record { address = a.address; next_id = a.next_id; neighbours = a.neighbours.items; known = a.known.items }) };
}

impl Adjacencies {
    /// The adjacencies of an edge of the plan before its first Hello: none lives, and Hellos are numbered from 1.
    pub fn open(alloc: Global, plan: &Plan, me: EdgeId) -> Result<Adjacencies, NoMemory>
        requires checked { IsChecked plan.now }
        requires me { me.0 < length plan.now.edges }
        ensures address { IfOk result (λ a. edge_address plan.now me ≡ Some a.address) }
        ensures neighbours { IfOk result (λ a. a.neighbours ≡ neighbours_from plan.now me.0 0 plan.now.edges) }
        ensures count { IfOk result (λ a. length a.known ≡ length plan.now.edges) }
        ensures first { IfOk result (λ a. IsAfter [] a) }
    {
        let address = plan.edges.as_slice()[me.0 as usize].address;
        let neighbours = neighbours_of(alloc, plan, me)?;
        let known = vec![in alloc; UNKNOWN; neighbours.len()]?;
        Ok(Adjacencies {
            address,
            next_id: 1,
            neighbours,
            known,
        })
    }

    /// Says a Hello to a peer, an edge of the plan, and proposes a hold time by it, 0 to 65,535 seconds: writes one PDU to the front of
    /// `out` and leaves the rest. It is a targeted Hello that asks for one in answer, with the edge's transport address, under the next
    /// Message ID. Answers the octets written, 34; `out` has room for them.
    pub fn say(&mut self, peer: EdgeId, hold: u16, out: &mut [u8]) -> usize
        requires peer { peer.0 < length self.old.known }
        requires room { 34 ≤ length out.old }
        ensures count { result ≡ 34 }
        ensures octets { out.new ≡ hello_octets self.old.address self.old.next_id hold ++ drop 34 out.old }
        ensures kept { self.new ≡ adjacencies_after (said peer.0 hold) self.old }
    {
        let count = put_hello(self.address, self.next_id, hold, out);
        self.next_id = self.next_id.wrapping_add(1);
        propose(&mut self.known, peer, hold);
        count
    }

    /// Hears octets that a peer, an edge of the plan, has sent. `Fresh` exactly where they spell one targeted Hello of this peer: its
    /// hold time then stands beside the edge's own proposal of this moment. Else `Ignored` tells the first fault, and nothing changes.
    /// Where memory was refused nothing changes.
    pub fn hear(&mut self, alloc: Global, from: EdgeId, bytes: &[u8]) -> Result<Heard, NoMemory>
        requires { from.0 < length self.old.known }
        ensures heard { IfOk result (λ heard. Hears self.old from.0 bytes.now heard self.new) }
        ensures nothing { OnErr result (self.new ≡ self.old) }
    {
        let address = self.neighbours[from.0 as usize].address;
        match hold_heard(alloc, address, bytes) {
            Ok(Ok(hold)) => {
                refresh(&mut self.known, from, hold);
                Ok(Heard::Fresh)
            }
            Ok(Err(fault)) => Ok(Heard::Ignored(fault)),
            Err(fault) => Err(fault),
        }
    }

    /// A tick passes. Answers which adjacencies ended by it.
    pub fn tick(&mut self) -> Lapsed
        ensures lapsed { (peer : ℕ) → slice_index_or result peer false ≡ lapses (known_of self.old peer) }
        ensures kept { self.new ≡ adjacencies_after ticked self.old }
    {
        let lapsed = lapsing(self.known.as_slice());
        age_all(&mut self.known);
        lapsed
    }

    /// Whether the adjacency with a peer lives: the smaller one of the two hold times of the peer's last Hello is not over, its own and
    /// the one that the edge had proposed as it came. A hold time of 0 stands for 45 seconds, and one of 65,535 has no end.
    #[tactic(auto, using(crate::proofs::AdjacencyLemmas::lives_is))]
    pub fn lives(&self, peer: EdgeId) -> bool
        ensures kept { result ≡ is_adjacency_live (known_of self.now peer.0) }
        ensures history { (history : List Deed) → AreHolds history → IsAfter history self.now → peer.0 < length self.now.known → result ≡ live peer.0 history }
    {
        self.is_known_live(peer)
    }

    // The same by what is kept of the peer.
    fn is_known_live(&self, peer: EdgeId) -> bool
        ensures { result ≡ is_adjacency_live (known_of self.now peer.0) }
    {
        match self.known.get(peer.0 as usize) {
            Some(adjacency) => adjacency_lives(*adjacency),
            None => false,
        }
    }

    /// How many edges the plan has.
    pub fn count(&self) -> usize
        ensures { result ≡ length self.now.known }
    {
        self.known.len()
    }

    /// Whether a segment of some wire joins the edge with this one.
    pub fn is_joined(&self, peer: EdgeId) -> bool
        ensures { result ≡ is_joined_to (slice_get self.now.neighbours peer.0) }
    {
        match self.neighbours.get(peer.0 as usize) {
            Some(neighbour) => neighbour.joined,
            None => false,
        }
    }
}

// The edges of a plan beside one of them.
fn neighbours_of(alloc: Global, plan: &Plan, me: EdgeId) -> Result<Vec<Neighbour>, NoMemory>
    requires { IsChecked plan.now }
    ensures listed { IfOk result (λ neighbours. neighbours.items ≡ neighbours_from plan.now me.0 0 plan.now.edges) }
    ensures count { IfOk result (λ neighbours. length neighbours.items ≡ length plan.now.edges) }
{
    let mut neighbours = Vec::with_capacity(alloc, plan.edges.len())?;
    for (place, row) in plan.edges.as_slice().iter().enumerate() {
        neighbours.push(Neighbour {
            address: row.address,
            joined: plan.joined(me, EdgeId(place as u16)),
        })?;
    }
    Ok(neighbours)
}

// The edge proposes a hold time to a peer.
fn propose(known: &mut Vec<Adjacency>, peer: EdgeId, hold: u16)
    requires { peer.0 < length known.old.items }
    ensures { known.new.items ≡ slice_set known.old.items peer.0 (hold_proposed hold (slice_index_or known.old.items peer.0 unknown)) }
{
    let place = peer.0 as usize;
    known[place] = known[place].proposing(hold);
}

// A Hello of a peer came.
fn refresh(known: &mut Vec<Adjacency>, peer: EdgeId, hold: u16)
    requires { peer.0 < length known.old.items }
    ensures { known.new.items ≡ slice_set known.old.items peer.0 (refreshed hold (slice_index_or known.old.items peer.0 unknown)) }
{
    let place = peer.0 as usize;
    known[place] = known[place].refreshed(hold);
}

// Which adjacencies end by the next tick.
#[tactic(auto, using(crate::proofs::LapsedLemmas::ended_all))]
fn lapsing(known: &[Adjacency]) -> Lapsed
    requires { length known.now ≤ 64 }
    ensures { (peer : ℕ) → slice_index_or result peer false ≡ lapses (slice_index_or known.now peer unknown) }
{
    let mut ended = [false; MOST_EDGES];
    for (place, adjacency) in known.iter().enumerate() {
        ended[place] = is_lapsing(*adjacency);
    }
    Lapsed { ended }
}

// Whether an adjacency ends by the next tick.
fn is_lapsing(adjacency: Adjacency) -> bool
    ensures { result ≡ lapses adjacency }
{
    adjacency_lives(adjacency) && !adjacency_lives(tick_later(adjacency))
}

// Each adjacency is a tick older.
fn age_all(known: &mut Vec<Adjacency>)
    ensures { known.new.items ≡ map adjacency_aged known.old.items }
{
    for adjacency in known.iter_mut() {
        age(adjacency);
    }
}

// An adjacency is a tick older.
fn age(adjacency: &mut Adjacency)
    ensures { adjacency.new ≡ adjacency_aged adjacency.old }
{
    *adjacency = tick_later(*adjacency);
}
