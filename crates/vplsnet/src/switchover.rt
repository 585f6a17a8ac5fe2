//! The command `switchover`: what a script makes of the edges of a scenario in independent mode.
ghost use Rattle.std.specs.Prelude.{◌≡◌, ◌<◌, ◌^◌, ◌-◌, [], All, None, length};
ghost use Rattle.flight_laws.specs.Ends.{HasTypes};
ghost use Rattle.net_base.specs.plan.Accepted.{IsChecked};
ghost use Rattle.switchover_model.specs.Planned.{IsLineOf};
ghost use Rattle.switchover_script.specs.Lines.{switch_lines_in};
ghost use Rattle.switchover_text.specs.Text.{switchover_text};
ghost use Rattle.text_lines.specs.Written.{lines_written};
ghost use Rattle.vplsnet.specs.{Answers.{SaysOutcome}, Around.{Has, around, gained}, Asked.{Switchover}, Finish.{exit_status}};
ghost use Rattle.vplsnet.specs.{Reads.{GainsReads, IsReadOfNext}, ScriptFile.{EndsScript}, Writing.{EndsExchange, WritesText}};

use crate::finish::Finish;
use crate::outcome::Outcome;
use crate::plan_file::plan_and_file;
use crate::script_file::{SCRIPT_LIMIT, refused};
use crate::stream_text::flush_page;
use net_base::{List, NoMemory, Plan, Shelf, Sink};
use std::alloc::Global;
use switchover_model::SwitchEntry;
use switchover_net::play;
use switchover_script::{SwitchLine, read_script};
use switchover_text::put_switchover;
use text_lines::Page;

/// Reads a scenario and a script, has the edges of the scenario do the lines of the script in independent mode, and writes what comes of
/// each. The events of the scenario are not done, and the captures that it plays are not read.
#[tactic(auto, using(crate::proofs::SwitchoverLemmas::file_steps))]
pub fn switchover_files<F: Shelf, K: Sink>(
    alloc: Global,
    file: &str,
    script: &str,
    shelf: &mut F,
    sink: &mut K,
) -> Finish
    ensures status { result.status ≡ exit_status result.outcome }
    ensures answers { SaysOutcome (around F.reads F.faults K.taken K.faults shelf.old sink.old shelf.new sink.new) (Switchover file.now script.now) result.network result.outcome }
    ensures reads { GainsReads (IsReadOfNext (Has (gained (F.reads shelf.old) (F.reads shelf.new))) (Switchover file.now script.now)) (F.reads shelf.old) (F.reads shelf.new) }
{
    match plan_and_file(alloc, shelf, file, script, SCRIPT_LIMIT) {
        Ok(both) => {
            let octets = both.octets.as_slice();
            Finish::without_run(exchange(alloc, &both.scenario.plan, octets, sink))
        }
        Err(outcome) => Finish::without_run(outcome),
    }
}

// Reads a script, has the edges of a plan do its lines, and writes what comes of each. No line is done before all of them are read.
#[tactic(auto, using(crate::proofs::SwitchoverLemmas::script_steps))]
fn exchange<K: Sink>(alloc: Global, plan: &Plan, script: &[u8], sink: &mut K) -> Outcome
    requires checked { IsChecked plan.now }
    requires typed { HasTypes plan.now }
    requires few { length script.now < 2 ^ 32 - 2 }
    ensures { EndsScript (switch_lines_in plan.now script.now) (λ lines. EndsExchange plan.now lines (lines_written (K.taken sink.old) (K.faults sink.old) []) (lines_written (K.taken sink.new) (K.faults sink.new) []) None result) (lines_written (K.taken sink.old) (K.faults sink.old) []) (lines_written (K.taken sink.new) (K.faults sink.new) []) None result }
{
    match read_script(alloc, plan, script) {
        Ok(lines) => write_exchange(alloc, plan, lines.as_slice(), sink),
        Err(fault) => refused(fault),
    }
}

// Has the edges of a plan do lines, and writes what comes of each.
#[tactic(auto, using(crate::proofs::SwitchoverLemmas::line_steps, crate::proofs::SwitchoverLemmas::switch_types))]
fn write_exchange<K: Sink>(
    alloc: Global,
    plan: &Plan,
    lines: &[SwitchLine],
    sink: &mut K,
) -> Outcome
    requires checked { IsChecked plan.now }
    requires typed { HasTypes plan.now }
    requires planned { All (IsLineOf plan.now) lines.now }
    ensures { EndsExchange plan.now lines.now (lines_written (K.taken sink.old) (K.faults sink.old) []) (lines_written (K.taken sink.new) (K.faults sink.new) []) None result }
{
    let mut page = match Page::new(alloc) {
        Ok(page) => page,
        Err(NoMemory) => return Outcome::NoMemory,
    };
    match play(alloc, plan, lines) {
        Ok(told) => write_told(&mut page, sink, plan, lines, told.as_slice()),
        Err(NoMemory) => Outcome::NoMemory,
    }
}

// Writes what came of each line.
#[tactic(auto, using(crate::proofs::WritingLemmas::put_steps))]
fn write_told<K: Sink>(
    page: &mut Page,
    sink: &mut K,
    plan: &Plan,
    lines: &[SwitchLine],
    told: &[List<SwitchEntry>],
) -> Outcome
    requires { page.old ≡ [] }
    ensures { WritesText (switchover_text plan.now lines.now told.now) Outcome.Done (lines_written (K.taken sink.old) (K.faults sink.old) []) (lines_written (K.taken sink.new) (K.faults sink.new) []) result }
{
    match put_switchover(page, sink, plan, lines, told) {
        Ok(()) => flush_page(page, sink, Outcome::Done),
        Err(_) => Outcome::WriteFault,
    }
}
