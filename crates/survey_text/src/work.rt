//! A case at work.
ghost use Rattle.std.specs.Prelude.{◌≡◌, ◌<◌, IfOk, OnOk, [], ◌∷◌, length};
ghost use Rattle.network_model.specs.State.{NetworkState};
ghost use Rattle.survey_text.specs.Cases.{is_told, pairs_of, singles_of};
ghost use Rattle.survey_text.specs.Surveys.{AreAllKnown, AreLeft, ArePlaces, AreServices, IsCaseOf, IsOver, LeavesAll, LeavesOut, any_changed, fault_in, faults_at};

use crate::change::Change;
use crate::known::Known;
use crate::over::Over;
use crate::told::{fill_changes, is_some, leave_out};
use net_base::NoMemory;
use std::alloc::Global;
use survey_laws::Fault;
use survey_reach::Reaching;

/// Room in which cases are worked out.
#[derive(Drop)]
pub struct Work {
    pub reaching: Reaching,
    /// The faults of the case.
    pub faults: Vec<Fault>,
    /// What the case changes.
    pub changes: Vec<Change>,
    // What of it no part changes, and what a part changes.
    left: Vec<Change>,
    part: Vec<Change>,
}

impl Work {
    /// Room for any case.
    pub fn new(alloc: Global) -> Work {
        Work {
            reaching: Reaching::new(alloc),
            faults: Vec::new(alloc),
            changes: Vec::new(alloc),
            left: Vec::new(alloc),
            part: Vec::new(alloc),
        }
    }

    // Takes the faults at these places as those of the case.
    #[tactic(auto, using(crate::proofs::PartLemmas::place_within))]
    fn take_faults(&mut self, known: &Known, places: &[usize]) -> Result<(), NoMemory>
        requires { ArePlaces (length known.now.faults) places.now }
        ensures { OnOk result (self.new.faults.items ≡ faults_at known.now.faults places.now) }
    {
        self.faults.truncate(0);
        for place in places {
            self.faults.push(known.fault_at(*place))?;
        }
        Ok(())
    }

    // Works out what the faults of the case change, of which all is left.
    fn fill(&mut self, over: Over<'_>, known: &Known) -> Result<(), NoMemory>
        ghost before: { NetworkState }
        requires over { IsOver before over }
        requires known { AreServices over.plan.now before known.now.services.items }
        ensures changes { OnOk result (AreLeft over.entry.plan.now before self.new.faults.items [] self.new.changes.items) }
        ensures left { OnOk result (AreLeft over.entry.plan.now before self.new.faults.items [] self.new.left.items) }
        ensures faults { self.new.faults.items ≡ self.old.faults.items }
    {
        let services = known.services.as_slice();
        let faults = self.faults.as_slice();
        fill_changes(
            over,
            services,
            &mut self.reaching,
            faults,
            &mut self.changes,
        )?;
        self.left.truncate(0);
        self.left.extend_from_slice(self.changes.as_slice())?;
        Ok(())
    }

    // Leaves out what the fault at a place changes alone.
    fn leave_one(&mut self, over: Over<'_>, known: &Known, place: usize)
        ghost before: { NetworkState }
        requires over { IsOver before over }
        requires known { AreAllKnown over.plan.now before known.now }
        requires place { place < length known.now.faults }
        requires all { length self.old.left.items ≡ length over.plan.now.services }
        ensures left { LeavesOut over.entry.plan.now before (fault_in known.now.faults place ∷ []) self.old.left.items self.new.left.items }
        ensures changes { self.new.changes.items ≡ self.old.changes.items }
        ensures faults { self.new.faults.items ≡ self.old.faults.items }
    {
        let part = known.alone[place].changes.as_slice();
        let left = self.left.as_mut_slice();
        leave_out(over.plan.edges.len(), known.services.as_slice(), left, part);
    }

    // Leaves out what each of the faults at these places changes alone.
    #[tactic(auto, using(crate::proofs::PartLemmas::place_within))]
    fn leave_each(&mut self, over: Over<'_>, known: &Known, places: &[usize])
        ghost before: { NetworkState }
        requires over { IsOver before over }
        requires known { AreAllKnown over.plan.now before known.now }
        requires places { ArePlaces (length known.now.faults) places.now }
        requires all { length self.old.left.items ≡ length over.plan.now.services }
        ensures left { LeavesAll over.entry.plan.now before (singles_of (faults_at known.now.faults places.now)) self.old.left.items self.new.left.items }
        ensures changes { self.new.changes.items ≡ self.old.changes.items }
        ensures faults { self.new.faults.items ≡ self.old.faults.items }
    {
        for place in places {
            self.leave_one(over, known, *place);
        }
    }

    // Leaves out what two faults change together.
    fn leave_two(
        &mut self,
        over: Over<'_>,
        known: &Known,
        faults: [Fault; 2],
    ) -> Result<(), NoMemory>
        ghost before: { NetworkState }
        requires over { IsOver before over }
        requires known { AreServices over.plan.now before known.now.services.items }
        requires all { length self.old.left.items ≡ length over.plan.now.services }
        ensures left { OnOk result (LeavesOut over.entry.plan.now before faults self.old.left.items self.new.left.items) }
        ensures changes { self.new.changes.items ≡ self.old.changes.items }
        ensures faults { self.new.faults.items ≡ self.old.faults.items }
    {
        let services = known.services.as_slice();
        fill_changes(over, services, &mut self.reaching, &faults, &mut self.part)?;
        let left = self.left.as_mut_slice();
        leave_out(over.plan.edges.len(), services, left, self.part.as_slice());
        Ok(())
    }

    // Leaves out what each two of the three faults of the case change together.
    fn leave_pairs(&mut self, over: Over<'_>, known: &Known) -> Result<(), NoMemory>
        ghost before: { NetworkState }
        requires over { IsOver before over }
        requires known { AreServices over.plan.now before known.now.services.items }
        requires three { length self.old.faults.items ≡ 3 }
        requires all { length self.old.left.items ≡ length over.plan.now.services }
        ensures left { OnOk result (LeavesAll over.entry.plan.now before (pairs_of self.old.faults.items) self.old.left.items self.new.left.items) }
        ensures changes { self.new.changes.items ≡ self.old.changes.items }
        ensures faults { self.new.faults.items ≡ self.old.faults.items }
    {
        let one = self.faults[0];
        let other = self.faults[1];
        let last = self.faults[2];
        self.leave_two(over, known, [other, last])?;
        self.leave_two(over, known, [one, last])?;
        self.leave_two(over, known, [one, other])?;
        Ok(())
    }

    // Leaves out what smaller parts of the case change. What two of three faults change together is worked out only where something is left
    // beside what each of them changes alone.
    #[tactic(auto, using(crate::proofs::PartLemmas::told_alone, crate::proofs::PartLemmas::told_two, crate::proofs::PartLemmas::told_three, crate::proofs::PartLemmas::told_none, crate::proofs::PartLemmas::case_counts))]
    fn leave_parts(
        &mut self,
        over: Over<'_>,
        known: &Known,
        places: &[usize],
    ) -> Result<(), NoMemory>
        ghost before: { NetworkState }
        requires over { IsOver before over }
        requires case { IsCaseOf over.plan.now before known.now places.now }
        requires faults { self.old.faults.items ≡ faults_at known.now.faults places.now }
        requires left { AreLeft over.plan.now before self.old.faults.items [] self.old.left.items }
        ensures told { OnOk result (any_changed over.entry.plan.now.edges self.new.left.items ≡ is_told over.entry.plan.now before self.new.faults.items) }
        ensures changes { self.new.changes.items ≡ self.old.changes.items }
        ensures faults { self.new.faults.items ≡ self.old.faults.items }
    {
        if places.len() < 2 {
            return Ok(());
        }
        self.leave_each(over, known, places);
        if places.len() < 3 || !is_some(over.plan.edges.as_slice(), self.left.as_slice()) {
            return Ok(());
        }
        self.leave_pairs(over, known)
    }

    /// Works out the case of the faults at these places, and says whether it is told.
    pub fn take(
        &mut self,
        over: Over<'_>,
        known: &Known,
        places: &[usize],
    ) -> Result<bool, NoMemory>
        ghost before: { NetworkState }
        requires over { IsOver before over }
        requires case { IsCaseOf over.plan.now before known.now places.now }
        ensures faults { OnOk result (self.new.faults.items ≡ faults_at known.now.faults places.now) }
        ensures changes { OnOk result (AreLeft over.entry.plan.now before self.new.faults.items [] self.new.changes.items) }
        ensures told { IfOk result (λ told. told ≡ is_told over.entry.plan.now before self.new.faults.items) }
    {
        self.take_faults(known, places)?;
        self.fill(over, known)?;
        self.leave_parts(over, known, places)?;
        Ok(is_some(over.plan.edges.as_slice(), self.left.as_slice()))
    }
}
