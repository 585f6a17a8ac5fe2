//! The survey of a network, as it is put.
ghost use Rattle.std.specs.Prelude.{◌≡◌, ◌<◌, ◌-◌, ◌^◌, [], length, min, IfOk};
ghost use Rattle.network_model.specs.State.{NetworkState};
ghost use Rattle.psn_net.specs.Lists.{network_seen};
ghost use Rattle.survey_text.specs.{Cases.{cases_of}, Surveys.{AreShapes, IsOver, IsSurveyOf}, Text.{survey_text}};
ghost use Rattle.text_lines.specs.Written.{lines_written};
ghost use Rattle.vplsnet_survey.specs.Ended.{WritesSurvey, WritesText, count_cases};

use crate::ending::Ending;
use net_base::{NoMemory, ServiceId, Sink};
use psn_net::Network;
use std::alloc::Global;
use survey_net::{ground_of, shape_of};
use survey_reach::Shape;
use survey_text::{Over, Survey, SurveyStop, count_cases};
use text_lines::Page;
use vplsnet::Outcome;

/// The most cases of a survey.
const MOST_CASES: u128 = 100_000_000;

// What the plan of a network says of each service.
#[tactic(auto, using(crate::proofs::ShapeLemmas::shape_steps))]
fn shapes_of(alloc: Global, network: &Network) -> Result<Vec<Shape>, NoMemory>
    ensures { IfOk result (λ shapes. AreShapes network.now.plan shapes.items) }
{
    // Asked so that how many services there are at most is at hand for the proof.
    let _count = network.count();
    let mut shapes = Vec::new(alloc);
    for service in 0..network.plan().services.len() {
        let shape = shape_of(alloc, network, ServiceId(service as u16))?;
        shapes.push(shape)?;
    }
    Ok(shapes)
}

// How many cases there are.
fn count_of(survey: &Survey, most: usize) -> u128
    requires { length survey.now.known.faults < 2 ^ 32 }
    ensures { result ≡ length (cases_of most survey.now.known.faults) }
{
    count_cases(survey.count() as u64, most)
}

// Writes the whole text.
#[tactic(auto, using(crate::proofs::EndLemmas::write_steps))]
fn write_survey<K: Sink>(survey: &mut Survey, over: Over<'_>, most: usize, sink: &mut K) -> Ending
    ghost before: { NetworkState }
    requires over { IsOver before over }
    requires survey { IsSurveyOf over.plan.now before survey.old }
    ensures { WritesText (survey_text over.entry.plan.now before most) (lines_written (K.taken sink.old) (K.faults sink.old) []) (lines_written (K.taken sink.new) (K.faults sink.new) []) result }
{
    let mut page = match Page::new(over.alloc) {
        Ok(page) => page,
        Err(NoMemory) => return Ending::Vplsnet(Outcome::NoMemory),
    };
    match survey.put(&mut page, sink, over, most) {
        Ok(()) => {}
        Err(SurveyStop::Failed) => return Ending::Vplsnet(Outcome::WriteFault),
        Err(SurveyStop::NoMemory) => return Ending::Vplsnet(Outcome::NoMemory),
    }
    match page.flush(sink) {
        Ok(()) => Ending::Done,
        Err(_) => Ending::Vplsnet(Outcome::WriteFault),
    }
}

// A count up to 2^64 - 1.
fn capped(cases: u128) -> u64
    ensures { result ≡ min cases (2 ^ 64 - 1) }
{
    cases.min(u128::from(u64::MAX)) as u64
}

// Writes it, where there are not too many cases.
#[tactic(auto, using(crate::proofs::CountLemmas::few_listed, crate::proofs::EndLemmas::many_steps))]
fn write_few<K: Sink>(survey: Survey, over: Over<'_>, most: usize, sink: &mut K) -> Ending
    ghost before: { NetworkState }
    requires over { IsOver before over }
    requires survey { IsSurveyOf over.plan.now before survey }
    ensures { WritesSurvey (count_cases over.entry.plan.now before most) (survey_text over.entry.plan.now before most) (lines_written (K.taken sink.old) (K.faults sink.old) []) (lines_written (K.taken sink.new) (K.faults sink.new) []) result }
{
    let mut survey = survey;
    let cases = count_of(&survey, most);
    if cases > MOST_CASES {
        return Ending::TooManyCases(capped(cases));
    }
    write_survey(&mut survey, over, most, sink)
}

// A survey over the ground of a network.
#[tactic(auto, using(crate::proofs::ShapeLemmas::shapes_as))]
fn survey_over(network: &Network, over: Over<'_>) -> Result<Survey, NoMemory>
    ghost before: { NetworkState }
    requires over { IsOver before over }
    requires plan { over.plan.now ≡ network.now.plan }
    ensures { IfOk result (IsSurveyOf over.entry.plan.now before) }
{
    let shapes = shapes_of(over.alloc, network)?;
    Survey::new(over, shapes)
}

// Writes the survey of a network over its ground.
fn write_over<K: Sink>(network: &Network, over: Over<'_>, most: usize, sink: &mut K) -> Ending
    ghost before: { NetworkState }
    requires over { IsOver before over }
    requires plan { over.plan.now ≡ network.now.plan }
    ensures { WritesSurvey (count_cases over.entry.plan.now before most) (survey_text over.entry.plan.now before most) (lines_written (K.taken sink.old) (K.faults sink.old) []) (lines_written (K.taken sink.new) (K.faults sink.new) []) result }
{
    match survey_over(network, over) {
        Ok(survey) => write_few(survey, over, most, sink),
        Err(NoMemory) => Ending::Vplsnet(Outcome::NoMemory),
    }
}

/// Writes the survey of a network, of cases of at most so many faults, where these are not too many.
#[tactic(auto, using(crate::proofs::EndLemmas::over_is))]
pub fn write_network<K: Sink>(alloc: Global, network: &Network, most: usize, sink: &mut K) -> Ending
    ensures { WritesSurvey (count_cases network.now.plan (network_seen network.now) most) (survey_text network.now.plan (network_seen network.now) most) (lines_written (K.taken sink.old) (K.faults sink.old) []) (lines_written (K.taken sink.new) (K.faults sink.new) []) result }
{
    // Asked so that the plan is known to be checked for the proof.
    let _count = network.count();
    let ground = match ground_of(alloc, network) {
        Ok(ground) => ground,
        Err(NoMemory) => return Ending::Vplsnet(Outcome::NoMemory),
    };
    let over = Over {
        alloc,
        plan: network.plan(),
        ground: &ground,
    };
    write_over(network, over, most, sink)
}
