//! A survey at work.
ghost use Rattle.std.specs.Prelude.{◌≡◌, IfOk, length};
ghost use Rattle.network_model.specs.State.{NetworkState};
ghost use Rattle.survey_text.specs.Cases.{cases_of};
ghost use Rattle.survey_text.specs.Surveys.{AreShapes, IsOver, IsSurveyOf, SurveysOn};
ghost use Rattle.survey_text.specs.Text.{cases_text, survey_text};

mod visits;

use crate::known::Known;
use crate::over::Over;
use crate::put_ground::put_ground;
use crate::stop::SurveyStop;
use crate::tally::Tally;
use crate::work::Work;
use net_base::{Failed, NoMemory, Sink};
use survey_reach::Shape;
use text_lines::Page;

/// The services of a network, its faults, and what was counted of the cases so far.
#[derive(Drop)]
pub struct Survey {
    known: Known,
    work: Work,
    tally: Tally,
}

impl Survey {
    /// A survey of a network with these services, before the first case.
    pub fn new(over: Over<'_>, shapes: Vec<Shape>) -> Result<Survey, NoMemory>
        ghost before: { NetworkState }
        requires over { IsOver before over }
        requires shapes { AreShapes over.plan.now shapes.items }
        ensures { IfOk result (IsSurveyOf over.entry.plan.now before) }
    {
        let mut work = Work::new(over.alloc);
        match Known::new(over, &mut work.reaching, shapes) {
            Ok(known) => Ok(Survey {
                known,
                work,
                tally: Tally::new(over.alloc),
            }),
            Err(NoMemory) => {
                drop(work);
                Err(NoMemory)
            }
        }
    }

    /// How many faults there are.
    pub fn count(&self) -> usize
        ensures { result ≡ length self.now.known.faults }
    {
        self.known.faults.len()
    }

    // Puts the lines of the cases that are told, and the last lines.
    fn put_cases<K: Sink>(
        &mut self,
        page: &mut Page,
        sink: &mut K,
        over: Over<'_>,
        most: usize,
    ) -> Result<(), SurveyStop>
        ghost before: { NetworkState }
        requires over { IsOver before over }
        requires survey { IsSurveyOf over.plan.now before self.old }
        ensures { SurveysOn K.taken K.faults page.old page.new sink.old sink.new result (cases_text over.entry.plan.now before self.old.known.faults (cases_of most self.old.known.faults)) }
    {
        if let Err(stop) = self.visit_all(page, sink, over, most) {
            return Err(stop);
        }
        match self
            .tally
            .put(page, sink, over.plan, self.known.faults.len())
        {
            Ok(()) => Ok(()),
            Err(Failed) => Err(SurveyStop::Failed),
        }
    }

    /// Puts the whole text: what there is before each case, the lines of the cases of at most so many faults that are told, and the last
    /// lines. They are put as the cases are worked out, so that after `NoMemory` a front of the text was put.
    pub fn put<K: Sink>(
        &mut self,
        page: &mut Page,
        sink: &mut K,
        over: Over<'_>,
        most: usize,
    ) -> Result<(), SurveyStop>
        ghost before: { NetworkState }
        requires over { IsOver before over }
        requires survey { IsSurveyOf over.plan.now before self.old }
        ensures { SurveysOn K.taken K.faults page.old page.new sink.old sink.new result (survey_text over.entry.plan.now before most) }
    {
        match put_ground(page, sink, over, self.known.services.as_slice()) {
            Ok(()) => self.put_cases(page, sink, over, most),
            Err(Failed) => Err(SurveyStop::Failed),
        }
    }
}
