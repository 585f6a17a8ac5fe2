//! The adjacencies of all edges.
ghost use Rattle.std.specs.Prelude.{◌≡◌, ◌<◌, ◌≤◌, ◌^◌, ℕ, List, [], Some, false, length, slice_index_or, IfOk, OnErr, OnOk};
ghost use Rattle.net_values.specs.declared.addr.Addr.{Addr};
ghost use Rattle.net_base.specs.{declared.plan.Plan.{Plan}, plan.Accepted.{IsChecked}, plan.Paths.{are_joined, edge_address}};
ghost use Rattle.ldp_discovery.specs.{Adjacencies.{id_behind}, Hellos.{hello_octets}, Live.{Deed, heard, live, said, ticked}};
ghost use Rattle.ldp_discovery.specs.Histories.{AreAfter, AreEdgesOf, ends_by_tick, with_deed};

use crate::adjacencies::Adjacencies;
use crate::hello::HELLO_SIZE;
use crate::lapsed::Lapsed;
use net_base::{EdgeId, NoMemory, Plan};
use std::alloc::Global;
use std::marker::Model;

/// The Hello adjacencies of each edge of a plan, by the plan's places. Contracts see the list of them.
#[derive(Debug, Drop)]
pub struct AdjacencyTable {
    edges: Vec<Adjacencies>,
}

impl Model for AdjacencyTable {
    ghost use Rattle.std.specs.Prelude.{List};
    ghost use Rattle.ldp_discovery.specs.{Adjacencies.{AdjacencyLists}, Histories.{AreSized}};

    ghost Value = { List AdjacencyLists };

    ghost view = { λ t. t.edges.items };

    ghost invariant = { λ t. AreSized t.edges.items };
}

impl AdjacencyTable {
    /// The adjacencies of a plan's edges before the first Hello.
    #[tactic(auto, using(crate::proofs::HistoryLemmas::sized))]
    pub fn open(alloc: Global, plan: &Plan) -> Result<AdjacencyTable, NoMemory>
        requires { IsChecked plan.now }
        ensures plan { IfOk result (λ table. AreEdgesOf plan.now table) }
        ensures first { IfOk result (λ table. AreAfter (λ k. []) table) }
    {
        match open_edges(alloc, plan) {
            Ok(edges) => Ok(AdjacencyTable { edges }),
            Err(fault) => Err(fault),
        }
    }

    /// An edge says a Hello to another one, with a hold time of 0 to 65,535 seconds: a targeted one under its next Message ID. Answers its
    /// octets.
    #[tactic(auto, using(crate::proofs::HistoryLemmas::size_at, crate::proofs::HistoryLemmas::sized_after, crate::proofs::HistoryLemmas::said_after, crate::proofs::HistoryLemmas::plan_after, crate::proofs::HistoryLemmas::said_octets))]
    pub fn say(&mut self, from: EdgeId, to: EdgeId, hold: u16) -> [u8; HELLO_SIZE]
        requires from { from.0 < length self.old }
        requires to { to.0 < length self.old }
        ensures plan { (plan : Plan) → AreEdgesOf plan self.old → AreEdgesOf plan self.new }
        ensures histories { (histories : ℕ → List Deed) → AreAfter histories self.old → AreAfter (with_deed from (said to.0 hold) histories) self.new }
        ensures octets { (histories : ℕ → List Deed) (plan : Plan) (address : Addr) → AreAfter histories self.old → AreEdgesOf plan self.old → edge_address plan from ≡ Some address → result ≡ hello_octets address (id_behind (histories from.0)) hold }
    {
        let mut octets = [0; HELLO_SIZE];
        self.edges[from.0 as usize].say(to, hold, &mut octets);
        octets
    }

    /// An edge hears octets that came from another one; a Hello of that edge is kept. Where memory was refused nothing changes.
    #[tactic(auto, using(crate::proofs::HistoryLemmas::size_at, crate::proofs::HistoryLemmas::heard_after, crate::proofs::HistoryLemmas::heard_fixed, crate::proofs::HistoryLemmas::heard_sized, crate::proofs::HistoryLemmas::heard_nothing))]
    pub fn hear(
        &mut self,
        alloc: Global,
        at: EdgeId,
        from: EdgeId,
        octets: &[u8; HELLO_SIZE],
    ) -> Result<(), NoMemory>
        requires at { at.0 < length self.old }
        requires from { from.0 < length self.old }
        ensures plan { (plan : Plan) → AreEdgesOf plan self.old → AreEdgesOf plan self.new }
        ensures histories { (histories : ℕ → List Deed) (plan : Plan) (address : Addr) (id hold : ℕ) → AreAfter histories self.old → AreEdgesOf plan self.old → edge_address plan from ≡ Some address → id < 2 ^ 32 → hold ≤ 65535 → octets.now ≡ hello_octets address id hold
            → OnOk result (AreAfter (with_deed at (heard from.0 hold) histories) self.new) }
        ensures nothing { OnErr result (self.new ≡ self.old) }
    {
        match self.edges[at.0 as usize].hear(alloc, from, octets) {
            Ok(_) => Ok(()),
            Err(fault) => Err(fault),
        }
    }

    /// A tick passes for the adjacencies of an edge. Answers which of them ended by it.
    #[tactic(auto, using(crate::proofs::HistoryLemmas::ticked_after, crate::proofs::HistoryLemmas::sized_after, crate::proofs::HistoryLemmas::plan_after, crate::proofs::HistoryLemmas::lapsed_at))]
    pub fn tick(&mut self, edge: EdgeId) -> Lapsed
        requires { edge.0 < length self.old }
        ensures plan { (plan : Plan) → AreEdgesOf plan self.old → AreEdgesOf plan self.new }
        ensures histories { (histories : ℕ → List Deed) → AreAfter histories self.old → AreAfter (with_deed edge ticked histories) self.new }
        ensures lapsed { (histories : ℕ → List Deed) (peer : ℕ) → AreAfter histories self.old → peer < length self.old → slice_index_or result peer false ≡ ends_by_tick (histories edge.0) peer }
    {
        self.edges[edge.0 as usize].tick()
    }

    /// Whether an edge's adjacency with another one lives.
    #[tactic(auto, using(crate::proofs::HistoryLemmas::lives_at))]
    pub fn lives(&self, edge: EdgeId, peer: EdgeId) -> bool
        requires edge { edge.0 < length self.now }
        requires peer { peer.0 < length self.now }
        ensures { (histories : ℕ → List Deed) → AreAfter histories self.now → result ≡ live peer.0 (histories edge.0) }
    {
        self.edges[edge.0 as usize].lives(peer)
    }

    /// Whether a segment of some wire joins two edges.
    #[tactic(auto, using(crate::proofs::HistoryLemmas::joined_at))]
    pub fn is_joined(&self, a: EdgeId, b: EdgeId) -> bool
        requires a { a.0 < length self.now }
        requires b { b.0 < length self.now }
        ensures { (plan : Plan) → AreEdgesOf plan self.now → result ≡ are_joined plan a.0 b.0 }
    {
        self.edges[a.0 as usize].is_joined(b)
    }
}

// The adjacencies of each edge of a plan before its first Hello.
fn open_edges(alloc: Global, plan: &Plan) -> Result<Vec<Adjacencies>, NoMemory>
    requires { IsChecked plan.now }
    ensures plan { IfOk result (λ edges. AreEdgesOf plan.now edges.items) }
    ensures first { IfOk result (λ edges. AreAfter (λ k. []) edges.items) }
{
    let mut edges = Vec::with_capacity(alloc, plan.edges.len())?;
    for place in 0..plan.edges.len() {
        edges.push(Adjacencies::open(alloc, plan, EdgeId(place as u16))?)?;
    }
    Ok(edges)
}
