//! The commands that run a scenario.
ghost use Rattle.std.specs.Prelude.{◌≡◌, [], All, IfErr, IfOk};
ghost use Rattle.net_base.specs.{plan.Accepted.{IsChecked}, plan.Planned.{IsFrame}};
ghost use Rattle.command_text.specs.Planned.{IsPlanned};
ghost use Rattle.flight_laws.specs.Ends.{HasTypes};
ghost use Rattle.text_lines.specs.Written.{lines_written};
ghost use Rattle.vplsnet.specs.{Answers.{IsRefused, SaysOutcome, run_text}, Around.{Has, around, gained}, Asked.{run_asked_by}};
ghost use Rattle.vplsnet.specs.{Finish.{exit_status}, Inputs.{ComesTo, Run, Works}, Reads.{GainsReads, IsReadOfNext}, RunOver.{outcome_by}, Writing.{EndsRun, WritesText}};

use crate::finish::Finish;
use crate::outcome::Outcome;
use crate::run_request::RunRequest;
use crate::run_text::put_run;
use crate::scenario_file::scenario_of;
use crate::scenario_run::{ScenarioRun, outcome_of, run_scenario};
use crate::stream_text::flush_page;
use crate::types::see_entries;
use crate::work::Work;
use net_base::{List, NoMemory, Shelf, Sink};
use rehearsal::rehearsal;
use std::alloc::Global;
use tables_text::Sorting;
use text_lines::Page;

/// Reads the scenario of a request with the captures that it plays, runs it, and writes what the request asks of the run.
#[tactic(auto, using(crate::proofs::AnswerLemmas::refused_answers, crate::proofs::AnswerLemmas::run_answers))]
pub fn run_files<F: Shelf, K: Sink>(
    alloc: Global,
    request: RunRequest<'_>,
    shelf: &mut F,
    sink: &mut K,
) -> Finish
    ensures status { result.status ≡ exit_status result.outcome }
    ensures answers { SaysOutcome (around F.reads F.faults K.taken K.faults shelf.old sink.old shelf.new sink.new) (run_asked_by request.entry) result.network result.outcome }
    ensures reads { GainsReads (IsReadOfNext (Has (gained (F.reads shelf.old) (F.reads shelf.new))) (run_asked_by request.entry)) (F.reads shelf.old) (F.reads shelf.new) }
{
    match work_of(alloc, request, shelf) {
        Ok(work) => finish_work(alloc, request, work, sink),
        Err(outcome) => Finish::without_run(outcome),
    }
}

// The scenario of a request, with the captures that it plays, or the outcome of what is refused first.
#[tactic(auto, using(crate::proofs::ScenarioFileLemmas::work_steps, crate::proofs::ReadLemmas::reads_none))]
fn work_of<F: Shelf>(alloc: Global, request: RunRequest<'_>, shelf: &mut F) -> Result<Work, Outcome>
    ensures come { IfOk result (λ work. ComesTo (Has (gained (F.reads shelf.old) (F.reads shelf.new))) (run_asked_by request.entry) (Works (Run work.scenario work.captures))) }
    ensures checked { IfOk result (λ work. IsChecked work.scenario.plan) }
    ensures typed { IfOk result (λ work. HasTypes work.scenario.plan) }
    ensures planned { IfOk result (λ work. All (IsPlanned work.scenario.plan) work.scenario.commands) }
    ensures frames { IfOk result (λ work. All (All IsFrame) work.captures) }
    ensures refused { IfErr result (IsRefused (gained (F.reads shelf.old) (F.reads shelf.new)) (F.faults shelf.old) (F.faults shelf.new) (run_asked_by request.entry)) }
    ensures reads { GainsReads (IsReadOfNext (Has (gained (F.reads shelf.old) (F.reads shelf.new))) (run_asked_by request.entry)) (F.reads shelf.old) (F.reads shelf.new) }
{
    match request {
        RunRequest::Replay { file } => scenario_of(alloc, shelf, request, file),
        RunRequest::Tables { file } => scenario_of(alloc, shelf, request, file),
        RunRequest::Capture { file, .. } => scenario_of(alloc, shelf, request, file),
        RunRequest::Rehearse { seed } => match rehearsal(alloc, seed) {
            Ok(scenario) => Ok(Work {
                scenario,
                captures: List::new(alloc),
            }),
            Err(NoMemory) => Err(Outcome::NoMemory),
        },
    }
}

// The page on which a text is put, and the room in which addresses are sorted.
#[derive(Drop)]
struct Room {
    page: Page,
    sorting: Sorting,
}

impl Room {
    // Both, with nothing in them, and all the memory that they take.
    fn new(alloc: Global) -> Result<Room, NoMemory>
        ensures { IfOk result (λ room. room.page ≡ []) }
    {
        Ok(Room {
            page: Page::new(alloc)?,
            sorting: Sorting::new(alloc)?,
        })
    }
}

// Runs a scenario, and writes what the request asks of the run.
#[tactic(auto, using(crate::proofs::RunLemmas::is_scenario_run, crate::proofs::RunLemmas::checked_as, crate::proofs::WritingLemmas::run_steps))]
fn finish_work<K: Sink>(alloc: Global, request: RunRequest<'_>, work: Work, sink: &mut K) -> Finish
    requires checked { IsChecked work.scenario.plan }
    requires typed { HasTypes work.scenario.plan }
    requires planned { All (IsPlanned work.scenario.plan) work.scenario.commands }
    requires frames { All (All IsFrame) work.captures }
    ensures status { result.status ≡ exit_status result.outcome }
    ensures ends { EndsRun work.scenario work.captures (run_asked_by request.entry) (lines_written (K.taken sink.old) (K.faults sink.old) []) (lines_written (K.taken sink.new) (K.faults sink.new) []) result.network result.outcome }
{
    let mut room = match Room::new(alloc) {
        Ok(room) => room,
        Err(NoMemory) => return Finish::without_run(Outcome::NoMemory),
    };
    match run_scenario(alloc, work) {
        Ok(run) => {
            see_entries(&run.network);
            let outcome = write_run(&mut room, sink, request, &run);
            Finish::after_run(outcome, Some(run.network))
        }
        Err(NoMemory) => Finish::without_run(Outcome::NoMemory),
    }
}

// Writes what the request asks of a run.
#[tactic(auto, using(crate::proofs::WritingLemmas::put_steps))]
fn write_run<K: Sink>(
    room: &mut Room,
    sink: &mut K,
    request: RunRequest<'_>,
    run: &ScenarioRun,
) -> Outcome
    requires checked { IsChecked run.now.network.plan }
    requires empty { room.old.page ≡ [] }
    ensures { WritesText (run_text (run_asked_by request.entry) run.now.network run.now.stop) (outcome_by run.now.stop) (lines_written (K.taken sink.old) (K.faults sink.old) []) (lines_written (K.taken sink.new) (K.faults sink.new) []) result }
{
    match put_run(&mut room.page, sink, &mut room.sorting, request, run) {
        Ok(()) => flush_page(&mut room.page, sink, outcome_of(run.stop)),
        Err(_) => Outcome::WriteFault,
    }
}
