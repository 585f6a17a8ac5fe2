//! The command `migrate`: the scenario of a file as a text of version 2.
ghost use Rattle.std.specs.Prelude.{◌≡◌, [], None};
ghost use Rattle.migration.specs.Law.{WasRead};
ghost use Rattle.text_lines.specs.Written.{lines_written};
ghost use Rattle.vplsnet.specs.{Answers.{SaysOutcome}, Around.{Has, around, gained}, Asked.{Migrate}, Finish.{exit_status}};
ghost use Rattle.vplsnet.specs.{Reads.{GainsReads, IsReadOfNext}, Writing.{EndsMigration}};

use crate::finish::Finish;
use crate::outcome::Outcome;
use crate::scenario_file::file_scenario;
use migration::migrate;
use net_base::{NoMemory, Shelf, Sink};
use scenario_text::Scenario;
use std::alloc::Global;
use text_lines::write_text;

/// Reads a scenario of either version, and writes a text of version 2 that is read as the same scenario. The captures that it plays are
/// not read, and no run begins.
#[tactic(auto, using(crate::proofs::AnswerLemmas::no_migration, crate::proofs::ScenarioFileLemmas::was_read, crate::proofs::ReadLemmas::migrate_reads))]
pub fn migrate_file<F: Shelf, K: Sink>(
    alloc: Global,
    file: &str,
    shelf: &mut F,
    sink: &mut K,
) -> Finish
    ensures status { result.status ≡ exit_status result.outcome }
    ensures answers { SaysOutcome (around F.reads F.faults K.taken K.faults shelf.old sink.old shelf.new sink.new) (Migrate file.now) result.network result.outcome }
    ensures reads { GainsReads (IsReadOfNext (Has (gained (F.reads shelf.old) (F.reads shelf.new))) (Migrate file.now)) (F.reads shelf.old) (F.reads shelf.new) }
{
    match file_scenario(alloc, shelf, file) {
        Ok(scenario) => Finish::without_run(write_migrated(alloc, &scenario, sink)),
        Err(outcome) => Finish::without_run(outcome),
    }
}

// Writes a text of version 2 of a scenario. The text is made whole before the first octet is written, so that nothing is taken where
// memory is refused.
#[tactic(auto, using(crate::proofs::WritingLemmas::migrated_steps))]
fn write_migrated<K: Sink>(alloc: Global, scenario: &Scenario, sink: &mut K) -> Outcome
    requires { WasRead scenario.now }
    ensures { EndsMigration scenario.now (lines_written (K.taken sink.old) (K.faults sink.old) []) (lines_written (K.taken sink.new) (K.faults sink.new) []) None result }
{
    let text = match migrate(alloc, scenario) {
        Ok(text) => text,
        Err(NoMemory) => return Outcome::NoMemory,
    };
    match write_text(sink, text.as_bytes()) {
        Ok(()) => Outcome::Done,
        Err(_) => Outcome::WriteFault,
    }
}
