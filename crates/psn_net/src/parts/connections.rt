//! The events of connections.
ghost use Rattle.std.specs.Prelude.{◌≡◌, ◌<◌, drop, length, take, IfOk, OnOk};
ghost use Rattle.network_model.specs.Connection.{connect_event, deliver_event, delivering, hearing_work, lose_event, restart_event};
ghost use Rattle.network_model.specs.State.{with_pipe, without_octets_to};
ghost use Rattle.provider_edge.specs.Said.{AllFit};
ghost use Rattle.psn_net.specs.Lists.{HasDriven, HasRoom, HasStepped, KeepsNetwork, network_seen};

use crate::parts::{Parts, work_of};
use crate::trail::NO_TRAIL;
use edge_model::{Effects, Input};
use net_base::{EdgeId, Entry, NoMemory};
use std::alloc::Global;

impl Parts {
    // Two edges connect: both ends come to stand, and then what the edges gave out is on its way.
    pub(crate) fn connect(
        &mut self,
        alloc: Global,
        from: EdgeId,
        to: EdgeId,
    ) -> Result<(), NoMemory>
        requires from { from.0 < length self.old.plan.edges }
        requires to { to.0 < length self.old.plan.edges }
        requires room { HasRoom self.old }
        ensures keeps { KeepsNetwork self.old self.new }
        ensures step { OnOk result (HasStepped self.old self.new (connect_event self.old.plan from to (network_seen self.old))) }
    {
        if !self.can_connect(from, to) {
            return self.tell(Entry::Idle);
        }
        let first = self.drive(alloc, from, Input::Connected { peer: to })?;
        let second = self.drive(alloc, to, Input::Connected { peer: from })?;
        self.absorb(alloc, from, NO_TRAIL, first.list)?;
        self.absorb(alloc, to, NO_TRAIL, second.list)
    }

    // The first octets on their way between two edges are delivered. Where none are and the end that put them is gone, the
    // receiver's end is lost.
    pub(crate) fn deliver(
        &mut self,
        alloc: Global,
        from: EdgeId,
        to: EdgeId,
        count: u16,
    ) -> Result<(), NoMemory>
        requires from { from.0 < length self.old.plan.edges }
        requires to { to.0 < length self.old.plan.edges }
        requires room { HasRoom self.old }
        ensures keeps { KeepsNetwork self.old self.new }
        ensures step { OnOk result (HasStepped self.old self.new (deliver_event self.old.plan from to count (network_seen self.old))) }
    {
        if !self.is_deliverable(from, to) {
            return self.tell(Entry::Idle);
        }
        if self.is_drained(from, to) {
            return self.absorb_input(alloc, to, NO_TRAIL, Input::Lost { peer: from });
        }
        self.deliver_octets(alloc, from, to, count)
    }

    // Octets on their way are delivered.
    #[tactic(auto, using(crate::proofs::ConnectionLemmas::deliver_stepped))]
    fn deliver_octets(
        &mut self,
        alloc: Global,
        from: EdgeId,
        to: EdgeId,
        count: u16,
    ) -> Result<(), NoMemory>
        requires from { from.0 < length self.old.plan.edges }
        requires to { to.0 < length self.old.plan.edges }
        requires room { HasRoom self.old }
        ensures keeps { KeepsNetwork self.old self.new }
        ensures step { OnOk result (HasStepped self.old self.new (delivering self.old.plan from to count (network_seen self.old))) }
    {
        match self.hand_over(alloc, from, to, count) {
            Ok(effects) => {
                self.give_up(from, to, count);
                self.absorb(alloc, to, NO_TRAIL, effects.list)
            }
            Err(fault) => Err(fault),
        }
    }

    // The receiver hears the octets, which still lie in the pipe.
    fn hand_over(
        &mut self,
        alloc: Global,
        from: EdgeId,
        to: EdgeId,
        count: u16,
    ) -> Result<Effects, NoMemory>
        requires from { from.0 < length self.old.plan.edges }
        requires to { to.0 < length self.old.plan.edges }
        ensures keeps { KeepsNetwork self.old self.new }
        ensures room { HasRoom self.old → HasRoom self.new }
        ensures driven { IfOk result (HasDriven to self.old self.new (hearing_work self.old.plan (network_seen self.old) from to (take count ((network_seen self.old).pipes from.0 to.0)))) }
        ensures fit { IfOk result (λ effects. AllFit self.old.plan effects.list) }
    {
        let bytes = self.pipes.front(from, to, count as usize);
        let heard = Input::Octets { peer: from, bytes };
        work_of(alloc, &mut self.edges[to.0 as usize], heard)
    }

    // The pipe gives up the octets. Cut for the prover: the step is not found where the pipes are opened beside it.
    #[tactic(auto, unfolding(crate::specs::Lists::network_seen, network_model::specs::State::with_pipe))]
    fn give_up(&mut self, from: EdgeId, to: EdgeId, count: u16)
        requires from { from.0 < length self.old.plan.edges }
        requires to { to.0 < length self.old.plan.edges }
        ensures keeps { KeepsNetwork self.old self.new }
        ensures trace { self.new.trace ≡ self.old.trace }
        ensures room { HasRoom self.old → HasRoom self.new }
        ensures state { network_seen self.new ≡ with_pipe from to (drop count ((network_seen self.old).pipes from.0 to.0)) (network_seen self.old) }
    {
        self.pipes.skip(from, to, count as usize);
    }

    // An edge loses its end of the connection with a peer.
    pub(crate) fn lose(&mut self, alloc: Global, me: EdgeId, peer: EdgeId) -> Result<(), NoMemory>
        requires me { me.0 < length self.old.plan.edges }
        requires room { HasRoom self.old }
        ensures keeps { KeepsNetwork self.old self.new }
        ensures step { OnOk result (HasStepped self.old self.new (lose_event self.old.plan me peer (network_seen self.old))) }
    {
        if !self.stands(me, peer) {
            return self.tell(Entry::Idle);
        }
        self.absorb_input(alloc, me, NO_TRAIL, Input::Lost { peer })
    }

    // An edge restarts.
    #[tactic(auto, using(crate::proofs::ConnectionLemmas::restart_stepped))]
    pub(crate) fn restart(&mut self, alloc: Global, me: EdgeId) -> Result<(), NoMemory>
        requires me { me.0 < length self.old.plan.edges }
        requires room { HasRoom self.old }
        ensures keeps { KeepsNetwork self.old self.new }
        ensures step { OnOk result (HasStepped self.old self.new (restart_event me (network_seen self.old))) }
    {
        match self.drive(alloc, me, Input::Restart) {
            Ok(effects) => {
                self.empty_pipes_to(me);
                self.absorb(alloc, me, NO_TRAIL, effects.list)
            }
            Err(fault) => Err(fault),
        }
    }

    // Nothing is on the way to an edge any more. Cut for the prover, as above.
    #[tactic(auto, unfolding(crate::specs::Lists::network_seen, network_model::specs::State::without_octets_to))]
    fn empty_pipes_to(&mut self, me: EdgeId)
        requires me { me.0 < length self.old.plan.edges }
        ensures keeps { KeepsNetwork self.old self.new }
        ensures trace { self.new.trace ≡ self.old.trace }
        ensures room { HasRoom self.old → HasRoom self.new }
        ensures state { network_seen self.new ≡ without_octets_to me (network_seen self.old) }
    {
        self.pipes.clear_to(me);
    }
}
