//! The edges of a plan.
ghost use Rattle.std.specs.Prelude.{◌≡◌, ◌<◌, [], true, is_some, length, IfOk};
ghost use Rattle.net_base.specs.plan.Accepted.{IsChecked};
ghost use Rattle.independent_mode.specs.Receiver.{HoldsBy};
ghost use Rattle.independent_model.specs.Calls.{independent_connects, independent_hears, is_connected, loses, sets, uses};
ghost use Rattle.independent_model.specs.{State.{first_state}, Wires.{other_end}, Work.{NeverRefused}};
ghost use Rattle.status_exchange.specs.{Exchange.{put_at_place}, Wish.{is_same_wish}};
ghost use Rattle.switchover_model.specs.{Network.{IsGoing, takes_all}, Text.{used as used_by}};
ghost use Rattle.switchover_net.specs.Rows.{AreFresh, HasDoneWork, NeverLink, seen_row};

use crate::taking_link::TakingLink;
use independent_mode::{IndepEdge, IndepStop, Wish};
use net_base::{EdgeId, LinkCall, List, NoMemory, Plan, WireId};
use std::alloc::Global;
use std::marker::Model;
use std::rc::Rc;

/// An edge in independent mode for each edge of a plan. Contracts see lists by the plan's places, and by `seen_row` a map.
#[derive(Drop)]
pub struct EdgeRow {
    plan: Rc<Plan>,
    edges: Vec<IndepEdge>,
}

impl Model for EdgeRow {
    ghost use Rattle.switchover_net.specs.Rows.{IsRow, RowLists};

    ghost Value = { RowLists };

    ghost view = { λ r. record { plan = r.plan.value; edges = r.edges.items } };

    ghost invariant = { λ r. IsRow (record { plan = r.plan.value; edges = r.edges.items }) };
}

impl EdgeRow {
    /// The edges of a plan before their first call, over a copy of the plan that they share.
    #[tactic(auto, using(crate::proofs::FreshLemmas::row_opened))]
    pub fn open(alloc: Global, plan: &Plan) -> Result<EdgeRow, NoMemory>
        requires { IsChecked plan.now }
        ensures plan { IfOk result (λ row. row.plan ≡ plan.now) }
        ensures first { IfOk result (λ row. seen_row row ≡ (λ me. first_state)) }
    {
        let plan = Rc::new(alloc, plan.copy(alloc)?)?;
        let edges = open_edges(alloc, &plan)?;
        Ok(EdgeRow { plan, edges })
    }

    /// The plan.
    pub fn plan(&self) -> &Plan
        ensures { result.now ≡ self.now.plan }
    {
        &self.plan
    }

    /// Whether an edge is connected with a peer.
    pub fn is_connected(&self, me: EdgeId, peer: EdgeId) -> bool
        requires me { me.0 < length self.now.plan.edges }
        ensures { result ≡ is_connected (seen_row self.now me.0) peer.0 }
    {
        self.edges[me.0 as usize].is_connected(peer)
    }

    /// How many octets of a peer an edge holds that are no whole PDU yet.
    pub fn held(&self, me: EdgeId, peer: EdgeId) -> usize
        requires me { me.0 < length self.now.plan.edges }
        ensures { HoldsBy result ((seen_row self.now me.0).connection peer.0) }
    {
        self.edges[me.0 as usize].held(peer)
    }

    /// Whether an edge uses a wire.
    pub fn uses(&self, me: EdgeId, wire: WireId) -> bool
        requires me { me.0 < length self.now.plan.edges }
        requires wire { wire.0 < length self.now.plan.wires }
        ensures { result ≡ uses self.now.plan me.0 (seen_row self.now me.0) wire.0 }
    {
        self.edges[me.0 as usize].uses(wire)
    }

    /// Whether an edge calls a wire so already.
    pub fn calls_so(&self, me: EdgeId, wire: WireId, wish: Wish) -> bool
        requires me { me.0 < length self.now.plan.edges }
        requires wire { wire.0 < length self.now.plan.wires }
        ensures { result ≡ is_same_wish ((seen_row self.now me.0).local wire.0) wish }
    {
        self.edges[me.0 as usize].calls_so(wire, wish)
    }

    /// Whether an edge uses each wire, in the order of the plan.
    #[tactic(auto, using(crate::proofs::UsedLemmas::used_steps))]
    pub fn used(&self, alloc: Global, me: EdgeId) -> Result<Vec<bool>, NoMemory>
        requires me { me.0 < length self.now.plan.edges }
        ensures len { IfOk result (λ used. length used.items ≡ length self.now.plan.wires) }
        ensures used { IfOk result (λ used. used.items ≡ used_by self.now.plan me.0 (seen_row self.now me.0)) }
    {
        let count = self.plan.wires.len();
        let mut used = Vec::with_capacity(alloc, count)?;
        for wire in 0..count {
            used.push(self.uses(me, WireId(wire as u16)))?;
        }
        Ok(used)
    }

    /// An edge loses the connection with a peer.
    pub fn lose(&mut self, me: EdgeId, peer: EdgeId)
        requires me { me.0 < length self.old.plan.edges }
        requires peer { peer.0 < length self.old.plan.edges }
        ensures plan { self.new.plan ≡ self.old.plan }
        ensures state { seen_row self.new ≡ put_at_place me.0 (loses self.old.plan me.0 peer (seen_row self.old me.0)) (seen_row self.old) }
    {
        self.edges[me.0 as usize].lost(peer);
    }

    /// An edge calls a wire something else. What it put is given out.
    #[tactic(auto, using(independent_model::proofs::StopLemmas::never_err))]
    pub fn set(
        &mut self,
        alloc: Global,
        me: EdgeId,
        wire: WireId,
        to: Wish,
    ) -> Result<List<LinkCall>, IndepStop>
        requires me { me.0 < length self.old.plan.edges }
        requires ends { is_some (other_end self.old.plan me.0 wire.0) ≡ true }
        ensures plan { self.new.plan ≡ self.old.plan }
        ensures link { NeverLink result }
        ensures refused { NeverRefused result }
        ensures step { IfOk result (λ calls. HasDoneWork me.0 self.old self.new calls (sets self.old.plan takes_all me.0 wire.0 to (seen_row self.old me.0) [])) }
    {
        let mut link = TakingLink::new(alloc);
        let done = self.edges[me.0 as usize].set(alloc, wire, to, &mut link);
        let calls = link.into_calls();
        match done {
            Ok(_) => {}
            Err(stop) => return Err(stop),
        }
        Ok(calls)
    }

    /// An edge is connected with a peer. What it put is given out.
    #[tactic(auto, using(independent_model::proofs::StopLemmas::never_err))]
    pub fn connect(
        &mut self,
        alloc: Global,
        me: EdgeId,
        peer: EdgeId,
    ) -> Result<List<LinkCall>, IndepStop>
        requires me { me.0 < length self.old.plan.edges }
        requires peer { peer.0 < length self.old.plan.edges }
        ensures plan { self.new.plan ≡ self.old.plan }
        ensures link { NeverLink result }
        ensures refused { NeverRefused result }
        ensures step { IfOk result (λ calls. HasDoneWork me.0 self.old self.new calls (independent_connects self.old.plan takes_all me.0 peer (seen_row self.old me.0) [])) }
    {
        let mut link = TakingLink::new(alloc);
        let done = self.edges[me.0 as usize].connected(alloc, peer, &mut link);
        let calls = link.into_calls();
        match done {
            Ok(()) => {}
            Err(stop) => return Err(stop),
        }
        Ok(calls)
    }

    /// An edge hears octets of a peer. What it put is given out.
    pub fn hear(
        &mut self,
        alloc: Global,
        me: EdgeId,
        peer: EdgeId,
        bytes: &[u8],
    ) -> Result<List<LinkCall>, IndepStop>
        requires me { me.0 < length self.old.plan.edges }
        requires peer { peer.0 < length self.old.plan.edges }
        ensures plan { self.new.plan ≡ self.old.plan }
        ensures link { NeverLink result }
        ensures refused { IsGoing (independent_hears self.old.plan takes_all me.0 peer bytes.now (seen_row self.old me.0) []) → NeverRefused result }
        ensures step { IfOk result (λ calls. HasDoneWork me.0 self.old self.new calls (independent_hears self.old.plan takes_all me.0 peer bytes.now (seen_row self.old me.0) [])) }
    {
        let mut link = TakingLink::new(alloc);
        let done = self.edges[me.0 as usize].hear(alloc, peer, bytes, &mut link);
        let calls = link.into_calls();
        match done {
            Ok(()) => {}
            Err(stop) => return Err(stop),
        }
        Ok(calls)
    }
}

// The edges of a plan, which they share.
fn open_edges(alloc: Global, plan: &Rc<Plan>) -> Result<Vec<IndepEdge>, NoMemory>
    requires { IsChecked plan.now.value }
    ensures { IfOk result (λ edges. AreFresh plan.now.value (length plan.now.value.edges) edges.items) }
{
    let mut edges = Vec::new(alloc);
    let count = plan.edges.len();
    for place in 0..count {
        edges.push(IndepEdge::share(alloc, plan.clone()?, EdgeId(place as u16))?)?;
    }
    Ok(edges)
}
