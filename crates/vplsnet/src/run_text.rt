//! The text that a command writes of a run.
ghost use Rattle.net_base.specs.plan.Accepted.{IsChecked};
ghost use Rattle.text_lines.specs.Written.{PutsOn};
ghost use Rattle.vplsnet.specs.{Answers.{run_text}, Asked.{run_asked_by}};

use crate::capture::put_left;
use crate::rehearse::put_counts;
use crate::replay::put_replayed;
use crate::run_request::RunRequest;
use crate::scenario_run::ScenarioRun;
use net_base::{Failed, Sink};
use tables_text::{Sorting, put_tables};
use text_lines::Page;

/// Puts the text of a request, with the room in which addresses are sorted. Of a run that a limit stopped there is a report alone.
#[tactic(auto, using(text_lines::proofs::WrittenLemmas::goes_none))]
pub fn put_run<K: Sink>(
    page: &mut Page,
    sink: &mut K,
    sorting: &mut Sorting,
    request: RunRequest<'_>,
    run: &ScenarioRun,
) -> Result<(), Failed>
    requires checked { IsChecked run.now.network.plan }
    ensures { PutsOn K.taken K.faults page.old page.new sink.old sink.new result (run_text (run_asked_by request.entry) run.now.network run.now.stop) }
{
    match request {
        RunRequest::Replay { .. } => put_replayed(page, sink, run),
        _ if run.stop.is_some() => Ok(()),
        RunRequest::Tables { .. } => put_tables(page, sink, sorting, &run.network),
        RunRequest::Capture { circuit, .. } => put_left(page, sink, &run.network, circuit),
        RunRequest::Rehearse { seed } => {
            put_counts(page, sink, run.network.trace().as_slice(), seed)
        }
    }
}
