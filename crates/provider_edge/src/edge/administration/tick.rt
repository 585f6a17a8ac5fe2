//! A tick passes.
ghost use Rattle.std.specs.Prelude.{◌≡◌, true, false, length, List, OnOk};
ghost use Rattle.net_base.specs.declared.outside.link_call.LinkCall.{LinkCall};
ghost use Rattle.session_core.specs.Table.{Ticked};
ghost use Rattle.edge_model.specs.{Labels.{resting}, Session.{happens_with_ends, losing_ends}, State.{has_end}, Tick.{ticks_sessions}};
ghost use Rattle.pw_messages.specs.LinkAnswers.{Answers};
ghost use Rattle.edge_model.specs.declared.effect.Effect.{Effect};
ghost use Rattle.edge_model.specs.declared.input.Input.TheVariants.{Tick};
ghost use Rattle.peer_dialogue.specs.Peering.{at_edge};
ghost use Rattle.provider_edge.specs.{AtWork.{IsBegun, Takes, TakesBy, Works, WorksBy}, Lists.{Keeps, seen}};

use crate::Edge;
use net_base::{EdgeId, Link, NoMemory};
use peer_dialogue::{AtWork, PeerEvent};

impl Edge {
    // The edge's labels rest, it counts the tick, its sessions have it, its addresses age, and then it mends its ends.
    pub(crate) fn tick<L: Link>(&mut self, work: &mut AtWork<'_, L>) -> Result<(), NoMemory>
        requires { IsBegun self.old work.old }
        ensures goes { Takes L.calls self.old work.old self.new work.new }
        ensures step { OnOk result (TakesBy L.calls self.old work.old self.new work.new Tick) }
    {
        self.rest_labels();
        self.count_tick();
        self.tick_sessions(work)?;
        self.age();
        self.mend(work)
    }

    // Each label that rests does so for one tick more. Where one is free by that, and none was left to be given, each idle end may want it,
    // so that any end may be unsettled.
    fn rest_labels(&mut self)
        requires working { self.old.stopped ≡ true }
        ensures keeps { Keeps self.old self.new }
        ensures step { seen self.new ≡ resting (seen self.old) }
    {
        let had_label = self.ends.has_label();
        self.ends.tick();
        if !had_label && self.ends.has_label() {
            self.marks = None;
        }
    }

    // The sessions have a tick, in the plan's order. Where none has anything to do at it, it takes no walk.
    fn tick_sessions<L: Link>(&mut self, work: &mut AtWork<'_, L>) -> Result<(), NoMemory>
        requires working { self.old.stopped ≡ true }
        ensures goes { Works L.calls self.old work.old self.new work.new }
        ensures step { OnOk result (WorksBy L.calls self.old work.old self.new work.new (λ told. ticks_sessions told 0 (length self.old.plan.edges))) }
    {
        if self.pass_quietly() {
            return Ok(());
        }
        self.tick_each(work)?;
        self.look_ahead();
        Ok(())
    }

    // The session with each peer has a tick, in the plan's order.
    fn tick_each<L: Link>(&mut self, work: &mut AtWork<'_, L>) -> Result<(), NoMemory>
        requires working { self.old.stopped ≡ true }
        ensures goes { Works L.calls self.old work.old self.new work.new }
        ensures step { OnOk result (WorksBy L.calls self.old work.old self.new work.new (λ told. ticks_sessions told 0 (length self.old.plan.edges))) }
    {
        for place in 0..self.plan.edges.len() {
            let peer = EdgeId(place as u16);
            self.tick_session(peer, work)?;
        }
        Ok(())
    }

    // The sessions have a tick at which none has anything to do, and no session stands that is still to be lost; false, and nothing has
    // changed, where that is not known without a walk.
    fn pass_quietly(&mut self) -> bool
        requires working { self.old.stopped ≡ true }
        ensures keeps { Keeps self.old self.new }
        ensures step { result ≡ true → (told : Answers) (calls : List LinkCall) (out : List Effect)
            → at_edge (seen self.new) calls out ≡ ticks_sessions told 0 (length self.old.plan.edges) (at_edge (seen self.old) calls out) }
        ensures stays { result ≡ false → seen self.new ≡ seen self.old }
    {
        if !self.ends.are_untold_but(self.peerings.standing()) {
            return false;
        }
        self.peerings.pass_quietly()
    }

    // Behind a tick that took a walk it is found for how many ticks none is wanted.
    fn look_ahead(&mut self)
        requires working { self.old.stopped ≡ true }
        ensures keeps { Keeps self.old self.new }
        ensures step { seen self.new ≡ seen self.old }
    {
        self.peerings.look_ahead();
    }

    // The session with a peer has a tick, where it stands. A peer that is apart is passed by, as most are in a large plan.
    fn tick_session<L: Link>(
        &mut self,
        peer: EdgeId,
        work: &mut AtWork<'_, L>,
    ) -> Result<(), NoMemory>
        requires working { self.old.stopped ≡ true }
        ensures goes { Works L.calls self.old work.old self.new work.new }
        ensures step { OnOk result (WorksBy L.calls self.old work.old self.new work.new (λ told. happens_with_ends told peer Ticked)) }
    {
        if self.is_apart(peer) {
            return Ok(());
        }
        self.happens(peer, PeerEvent::Ticked, work)
    }

    // Whether no session with a peer stands, and it is known without a walk over the ends that nothing was told of those beside
    // it, so that there are none to be lost.
    fn is_apart(&self, peer: EdgeId) -> bool
        ensures absent { result ≡ true → has_end (seen self.now) peer ≡ false }
        ensures untold { result ≡ true → losing_ends peer (seen self.now) ≡ seen self.now }
    {
        if self.has_end(peer) {
            return false;
        }
        self.ends.is_untold(peer)
    }
}
