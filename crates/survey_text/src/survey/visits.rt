//! The cases one by one.
ghost use Rattle.std.specs.Prelude.{◌≡◌, ◌<◌, ◌+◌, OnOk, [], ◌∷◌, length};
ghost use Rattle.network_model.specs.State.{NetworkState};
ghost use Rattle.survey_text.specs.Cases.{cases_of, more_cases, pairs, triples, with_one};
ghost use Rattle.survey_text.specs.Surveys.{AreAllKnown, AreLeft, Case, IsCaseOf, IsKnown, IsOver, IsWorkedOut, SurveysOn, VisitsOn, faults_at, tallied};
ghost use Rattle.survey_text.specs.Text.{case_text, tally_case};

use crate::over::Over;
use crate::put_case::put_case;
use crate::stop::SurveyStop;
use crate::survey::Survey;
use crate::told::count_lost;
use crate::worked_case::WorkedCase;
use net_base::{Failed, NoMemory, Sink};
use text_lines::Page;

impl Survey {
    // Counts the case that was worked out, and puts its lines, where it is told.
    #[tactic(auto, using(crate::proofs::VisitLemmas::front_none))]
    fn close<K: Sink>(
        &mut self,
        page: &mut Page,
        sink: &mut K,
        over: Over<'_>,
        told: bool,
    ) -> Result<(), SurveyStop>
        ghost case: { Case }
        requires over { IsOver case.before over }
        requires case { IsWorkedOut over.plan.now case self.old told }
        ensures text { SurveysOn K.taken K.faults page.old page.new sink.old sink.new result (case_text over.entry.plan.now case.before case.faults) }
        ensures tally { OnOk result (tallied self.new.tally ≡ tally_case over.entry.plan.now case.before case.faults (tallied self.old.tally)) }
        ensures known { self.new.known ≡ self.old.known }
        ensures changes { self.new.work.changes.items ≡ self.old.work.changes.items }
    {
        let services = self.known.services.as_slice();
        let changes = self.work.changes.as_slice();
        let faults = self.work.faults.as_slice();
        let lost = count_lost(over, services, changes);
        if let Err(NoMemory) = self.tally.add(over.alloc, faults, lost, told) {
            return Err(SurveyStop::NoMemory);
        }
        let worked = WorkedCase {
            over,
            services,
            changes,
            faults,
            lost,
            told,
        };
        match put_case(page, sink, worked) {
            Ok(()) => Ok(()),
            Err(Failed) => Err(SurveyStop::Failed),
        }
    }

    // Does the case of the faults at these places.
    #[tactic(auto, using(crate::proofs::VisitLemmas::visits_one, crate::proofs::VisitLemmas::front_none))]
    fn visit<K: Sink>(
        &mut self,
        page: &mut Page,
        sink: &mut K,
        over: Over<'_>,
        places: &[usize],
    ) -> Result<(), SurveyStop>
        ghost before: { NetworkState }
        requires over { IsOver before over }
        requires case { IsCaseOf over.plan.now before self.old.known places.now }
        ensures visits { VisitsOn over.entry.plan.now before K.taken K.faults page.old page.new sink.old sink.new result self.old.tally self.new.tally (faults_at self.old.known.faults places.now ∷ []) }
        ensures changes { OnOk result (AreLeft over.entry.plan.now before (faults_at self.old.known.faults places.now) [] self.new.work.changes.items) }
        ensures known { self.new.known ≡ self.old.known }
    {
        match self.work.take(over, &self.known, places) {
            Ok(told) => self.close(page, sink, over, told),
            Err(NoMemory) => Err(SurveyStop::NoMemory),
        }
    }

    // Does the case of the next fault of which nothing is known yet, and keeps what it changes.
    #[tactic(auto, using(crate::proofs::VisitLemmas::front_all, crate::proofs::VisitLemmas::case_one, crate::proofs::VisitLemmas::known_steps))]
    fn visit_next<K: Sink>(
        &mut self,
        page: &mut Page,
        sink: &mut K,
        over: Over<'_>,
        place: usize,
    ) -> Result<(), SurveyStop>
        ghost before: { NetworkState }
        requires over { IsOver before over }
        requires known { IsKnown over.plan.now before place self.old.known }
        requires place { place < length self.old.known.faults }
        ensures visits { VisitsOn over.entry.plan.now before K.taken K.faults page.old page.new sink.old sink.new result self.old.tally self.new.tally (faults_at self.old.known.faults (place ∷ []) ∷ []) }
        ensures known { OnOk result (IsKnown over.entry.plan.now before (place + 1) self.new.known) }
        ensures faults { self.new.known.faults ≡ self.old.known.faults }
    {
        if let Err(stop) = self.visit(page, sink, over, &[place]) {
            return Err(stop);
        }
        match self.known.keep(over, self.work.changes.as_slice()) {
            Ok(()) => Ok(()),
            Err(NoMemory) => Err(SurveyStop::NoMemory),
        }
    }

    // Does the cases of one fault.
    #[tactic(auto, using(crate::proofs::VisitLemmas::known_all))]
    fn visit_ones<K: Sink>(
        &mut self,
        page: &mut Page,
        sink: &mut K,
        over: Over<'_>,
    ) -> Result<(), SurveyStop>
        ghost before: { NetworkState }
        requires over { IsOver before over }
        requires known { IsKnown over.plan.now before 0 self.old.known }
        ensures visits { VisitsOn over.entry.plan.now before K.taken K.faults page.old page.new sink.old sink.new result self.old.tally self.new.tally (with_one [] self.old.known.faults) }
        ensures known { OnOk result (AreAllKnown over.entry.plan.now before self.new.known) }
        ensures faults { self.new.known.faults ≡ self.old.known.faults }
    {
        for place in 0..self.known.faults.len() {
            if let Err(stop) = self.visit_next(page, sink, over, place) {
                return Err(stop);
            }
        }
        Ok(())
    }

    // Does the cases of two faults.
    #[tactic(auto, using(crate::proofs::VisitLemmas::case_two))]
    fn visit_twos<K: Sink>(
        &mut self,
        page: &mut Page,
        sink: &mut K,
        over: Over<'_>,
    ) -> Result<(), SurveyStop>
        ghost before: { NetworkState }
        requires over { IsOver before over }
        requires known { AreAllKnown over.plan.now before self.old.known }
        ensures visits { VisitsOn over.entry.plan.now before K.taken K.faults page.old page.new sink.old sink.new result self.old.tally self.new.tally (pairs self.old.known.faults) }
        ensures known { self.new.known ≡ self.old.known }
    {
        let count = self.known.faults.len();
        for first in 0..count {
            for second in first + 1..count {
                if let Err(stop) = self.visit(page, sink, over, &[first, second]) {
                    return Err(stop);
                }
            }
        }
        Ok(())
    }

    // Does the cases of three faults.
    #[tactic(auto, using(crate::proofs::VisitLemmas::case_three))]
    fn visit_threes<K: Sink>(
        &mut self,
        page: &mut Page,
        sink: &mut K,
        over: Over<'_>,
    ) -> Result<(), SurveyStop>
        ghost before: { NetworkState }
        requires over { IsOver before over }
        requires known { AreAllKnown over.plan.now before self.old.known }
        ensures visits { VisitsOn over.entry.plan.now before K.taken K.faults page.old page.new sink.old sink.new result self.old.tally self.new.tally (triples self.old.known.faults) }
        ensures known { self.new.known ≡ self.old.known }
    {
        let count = self.known.faults.len();
        for first in 0..count {
            for second in first + 1..count {
                for third in second + 1..count {
                    if let Err(stop) = self.visit(page, sink, over, &[first, second, third]) {
                        return Err(stop);
                    }
                }
            }
        }
        Ok(())
    }

    // Does the cases of two faults, and those of three, where cases have so many.
    #[tactic(auto, using(crate::proofs::VisitLemmas::visits_two, crate::proofs::VisitLemmas::visits_first, crate::proofs::VisitLemmas::visited_none))]
    fn visit_more<K: Sink>(
        &mut self,
        page: &mut Page,
        sink: &mut K,
        over: Over<'_>,
        most: usize,
    ) -> Result<(), SurveyStop>
        ghost before: { NetworkState }
        requires over { IsOver before over }
        requires known { AreAllKnown over.plan.now before self.old.known }
        ensures visits { VisitsOn over.entry.plan.now before K.taken K.faults page.old page.new sink.old sink.new result self.old.tally self.new.tally (more_cases most self.old.known.faults) }
        ensures known { self.new.known ≡ self.old.known }
    {
        if most < 2 {
            return Ok(());
        }
        if most < 3 {
            return self.visit_twos(page, sink, over);
        }
        match self.visit_twos(page, sink, over) {
            Ok(()) => self.visit_threes(page, sink, over),
            Err(stop) => Err(stop),
        }
    }

    // Does all cases of at most so many faults, in the order of the faults: it counts each, and puts the lines of each that is told.
    #[tactic(auto, using(crate::proofs::VisitLemmas::visits_two, crate::proofs::VisitLemmas::visits_first))]
    pub(crate) fn visit_all<K: Sink>(
        &mut self,
        page: &mut Page,
        sink: &mut K,
        over: Over<'_>,
        most: usize,
    ) -> Result<(), SurveyStop>
        ghost before: { NetworkState }
        requires over { IsOver before over }
        requires known { IsKnown over.plan.now before 0 self.old.known }
        ensures visits { VisitsOn over.entry.plan.now before K.taken K.faults page.old page.new sink.old sink.new result self.old.tally self.new.tally (cases_of most self.old.known.faults) }
        ensures faults { self.new.known.faults ≡ self.old.known.faults }
    {
        match self.visit_ones(page, sink, over) {
            Ok(()) => self.visit_more(page, sink, over, most),
            Err(stop) => Err(stop),
        }
    }
}
