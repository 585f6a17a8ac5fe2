//! An edge mends its ends (RFC 8077 sections 6 and 6.3): all steps, in the order of its ends.
ghost use Rattle.std.specs.Prelude.{◌≡◌, ◌<◌, ◌+◌, List, None, length, false, IfOk, OnOk, true};
ghost use Rattle.net_base.specs.declared.outside.link_call.LinkCall.{LinkCall};
ghost use Rattle.edge_model.specs.EndPlaces.{end_places};
ghost use Rattle.edge_model.specs.Mend.{forgets_downs, mends, mends_choice, mends_end, mends_once, mends_status, tells_downs};
ghost use Rattle.edge_forwarding.specs.Views.{view};
ghost use Rattle.peer_dialogue.specs.Peering.{at_edge};
ghost use Rattle.provider_edge.specs.{AtWork.{SaysBy, Works, WorksBy}, Lists.{Keeps, seen}, Mending.{each_from}};

use crate::Edge;
use crate::end_marks::EndMarks;
use edge_model::Effect;
use net_base::{Link, List, NoMemory, WireId};
use peer_dialogue::AtWork;

impl Edge {
    // What each end tells follows what it should tell by now. Where the link did not take a message the edge mends again; each
    // such message ends a session, so there are no more rounds than edges.
    pub(crate) fn mend<L: Link>(&mut self, work: &mut AtWork<'_, L>) -> Result<(), NoMemory>
        requires working { self.old.stopped ≡ true }
        ensures goes { Works L.calls self.old work.old self.new work.new }
        ensures step { OnOk result (WorksBy L.calls self.old work.old self.new work.new (λ told. mends self.old.plan told)) }
    {
        if self.is_tidy() {
            return Ok(());
        }
        // Each round but the last one ends a session.
        let rounds = self.plan.edges.len() + 1;
        for _round in 0..rounds {
            if !self.mend_once(work)? {
                self.keep_marks(Some(EndMarks::none()));
                return Ok(());
            }
        }
        Ok(())
    }

    // All steps once; answers whether the link did not take a message.
    fn mend_once<L: Link>(&mut self, work: &mut AtWork<'_, L>) -> Result<bool, NoMemory>
        requires working { self.old.stopped ≡ true }
        ensures goes { Works L.calls self.old work.old self.new work.new }
        ensures step { IfOk result (SaysBy L.calls self.old work.old self.new work.new (λ told. mends_once self.old.plan told)) }
    {
        let before = self.all_chosen(work.alloc)?;
        let refused = self.mend_ends(work)?;
        self.choose_spokes();
        let untold = self.mend_statuses(refused, work)?;
        let failed = self.mend_choices(before.as_slice(), untold, work)?;
        self.settle_downs(&mut work.effects.list)?;
        Ok(failed)
    }

    // Each end is advertised, withdrawn or left. Those before the first mark and behind the last one are settled.
    fn mend_ends<L: Link>(&mut self, work: &mut AtWork<'_, L>) -> Result<bool, NoMemory>
        requires working { self.old.stopped ≡ true }
        ensures goes { Works L.calls self.old work.old self.new work.new }
        ensures step { IfOk result (SaysBy L.calls self.old work.old self.new work.new (λ told. each_from false (end_places self.old.plan self.old.me) (mends_end self.old.plan told))) }
    {
        let mut failed = false;
        for slot in self.first_marked()..self.count_ends() {
            if self.is_past(slot) {
                return Ok(failed);
            }
            failed |= self.mend_end(slot, work)?;
        }
        Ok(failed)
    }

    // Each end tells its status, where it has changed.
    fn mend_statuses<L: Link>(
        &mut self,
        before: bool,
        work: &mut AtWork<'_, L>,
    ) -> Result<bool, NoMemory>
        requires working { self.old.stopped ≡ true }
        ensures goes { Works L.calls self.old work.old self.new work.new }
        ensures step { IfOk result (SaysBy L.calls self.old work.old self.new work.new (λ told. each_from before (end_places self.old.plan self.old.me) (mends_status self.old.plan told))) }
    {
        let mut failed = before;
        for slot in self.first_marked()..self.count_ends() {
            if self.is_past(slot) {
                return Ok(failed);
            }
            failed |= self.mend_status(slot, work)?;
        }
        Ok(failed)
    }

    // Each spoke that was chosen anew withdraws addresses. Before this round the edge had chosen these wires, by services.
    fn mend_choices<L: Link>(
        &mut self,
        chosen: &[Option<WireId>],
        before: bool,
        work: &mut AtWork<'_, L>,
    ) -> Result<bool, NoMemory>
        requires working { self.old.stopped ≡ true }
        ensures goes { Works L.calls self.old work.old self.new work.new }
        ensures step { IfOk result (SaysBy L.calls self.old work.old self.new work.new (λ told. each_from before (end_places self.old.plan self.old.me) (mends_choice self.old.plan told (view None chosen.now)))) }
    {
        if self.has_chosen(chosen) {
            return Ok(before);
        }
        let mut failed = before;
        for slot in 0..self.count_ends() {
            failed |= self.mend_choice(chosen, slot, work)?;
        }
        Ok(failed)
    }

    // What was learned at each wire that does not forward is forgotten, and each wire that began to forward, or stopped, is told.
    fn settle_downs(&mut self, out: &mut List<Effect>) -> Result<(), NoMemory>
        requires working { self.old.stopped ≡ true }
        ensures keeps { Keeps self.old self.new }
        ensures step { OnOk result ((calls : List LinkCall)
            → at_edge (seen self.new) calls out.new
            ≡ tells_downs self.old.plan (end_places self.old.plan self.old.me) (forgets_downs self.old.plan (end_places self.old.plan self.old.me) (at_edge (seen self.old) calls out.old))) }
    {
        for slot in self.first_marked()..self.count_ends() {
            if self.is_past(slot) {
                return Ok(());
            }
            self.settle_down(slot, out)?;
        }
        Ok(())
    }

    // How many ends the edge has: those that the plan gives it, in the plan's order.
    #[inline(always)]
    pub(crate) fn count_ends(&self) -> usize
        ensures count { result ≡ length self.now.ends.places }
        ensures places { self.now.ends.places ≡ end_places self.now.plan self.now.me }
    {
        self.ends.len()
    }
}
