//! The command `discover`: the report of a script over the network of a scenario.
ghost use Rattle.std.specs.Prelude.{◌≡◌, ◌<◌, ◌^◌, ◌-◌, [], All, length};
ghost use Rattle.discovery_script.specs.{Lines.{discovery_lines_in}, Planned.{IsDiscoveryLineOf}};
ghost use Rattle.flight_laws.specs.Ends.{HasTypes};
ghost use Rattle.net_base.specs.plan.Accepted.{IsChecked};
ghost use Rattle.text_lines.specs.Written.{PutsOn, lines_written};
ghost use Rattle.vplsnet.specs.{Answers.{SaysOutcome}, Around.{Has, around, gained}, Asked.{Discover}, Discover.{discovery_text}};
ghost use Rattle.vplsnet.specs.{Finish.{exit_status}, Reads.{GainsReads, IsReadOfNext}, RunOver.{outcome_by}, ScriptFile.{EndsScript}, Writing.{EndsDiscovery, WritesText}};

use crate::finish::Finish;
use crate::outcome::Outcome;
use crate::plan_file::plan_and_file;
use crate::replay::ending_of;
use crate::scenario_run::outcome_of;
use crate::script_file::{SCRIPT_LIMIT, refused};
use crate::stream_text::flush_page;
use discovery_net::{DiscoveryRun, run_script};
use discovery_script::{ScriptLine, read_script};
use discovery_text::{NotedTrace, put_discovery};
use net_base::{Failed, List, NoMemory, Plan, Shelf, Sink};
use std::alloc::Global;
use text_lines::Page;

/// Reads a scenario and a script, does the lines of the script over the network of the scenario, and writes the report. The events of the
/// scenario are not done, and the captures that it plays are not read.
#[tactic(auto, using(crate::proofs::DiscoverLemmas::file_steps))]
pub fn discover_files<F: Shelf, K: Sink>(
    alloc: Global,
    file: &str,
    script: &str,
    shelf: &mut F,
    sink: &mut K,
) -> Finish
    ensures status { result.status ≡ exit_status result.outcome }
    ensures answers { SaysOutcome (around F.reads F.faults K.taken K.faults shelf.old sink.old shelf.new sink.new) (Discover file.now script.now) result.network result.outcome }
    ensures reads { GainsReads (IsReadOfNext (Has (gained (F.reads shelf.old) (F.reads shelf.new))) (Discover file.now script.now)) (F.reads shelf.old) (F.reads shelf.new) }
{
    match plan_and_file(alloc, shelf, file, script, SCRIPT_LIMIT) {
        Ok(both) => discover(alloc, &both.scenario.plan, both.octets.as_slice(), sink),
        Err(outcome) => Finish::without_run(outcome),
    }
}

// Reads a script, does its lines over the network of a plan, and writes the report. No line is done before all of them are read.
#[tactic(auto, using(crate::proofs::DiscoverLemmas::script_steps))]
fn discover<K: Sink>(alloc: Global, plan: &Plan, script: &[u8], sink: &mut K) -> Finish
    requires checked { IsChecked plan.now }
    requires typed { HasTypes plan.now }
    requires few { length script.now < 2 ^ 32 - 2 }
    ensures status { result.status ≡ exit_status result.outcome }
    ensures ends { EndsScript (discovery_lines_in plan.now script.now) (λ lines. EndsDiscovery plan.now lines (lines_written (K.taken sink.old) (K.faults sink.old) []) (lines_written (K.taken sink.new) (K.faults sink.new) []) result.network result.outcome) (lines_written (K.taken sink.old) (K.faults sink.old) []) (lines_written (K.taken sink.new) (K.faults sink.new) []) result.network result.outcome }
{
    match read_script(alloc, plan, script) {
        Ok(lines) => finish_lines(alloc, plan, lines, sink),
        Err(fault) => Finish::without_run(refused(fault)),
    }
}

// Does the lines of a script over the network of a plan, and writes the report.
#[tactic(auto, using(crate::proofs::DiscoverLemmas::line_steps))]
fn finish_lines<K: Sink>(
    alloc: Global,
    plan: &Plan,
    lines: List<ScriptLine>,
    sink: &mut K,
) -> Finish
    requires checked { IsChecked plan.now }
    requires typed { HasTypes plan.now }
    requires planned { All (IsDiscoveryLineOf plan.now) lines }
    ensures status { result.status ≡ exit_status result.outcome }
    ensures ends { EndsDiscovery plan.now lines (lines_written (K.taken sink.old) (K.faults sink.old) []) (lines_written (K.taken sink.new) (K.faults sink.new) []) result.network result.outcome }
{
    let mut page = match Page::new(alloc) {
        Ok(page) => page,
        Err(NoMemory) => return Finish::without_run(Outcome::NoMemory),
    };
    match run_script(alloc, plan, lines) {
        Ok(run) => {
            let outcome = write_lines(&mut page, sink, &run);
            Finish::after_run(outcome, Some(run.net.into_network()))
        }
        Err(NoMemory) => Finish::without_run(Outcome::NoMemory),
    }
}

// Writes the report of a script.
#[tactic(auto, using(crate::proofs::WritingLemmas::put_steps))]
fn write_lines<K: Sink>(page: &mut Page, sink: &mut K, run: &DiscoveryRun) -> Outcome
    requires { page.old ≡ [] }
    ensures { WritesText (discovery_text run.now.net.network run.now.net.notes run.now.stop) (outcome_by run.now.stop) (lines_written (K.taken sink.old) (K.faults sink.old) []) (lines_written (K.taken sink.new) (K.faults sink.new) []) result }
{
    match put_lines(page, sink, run) {
        Ok(()) => flush_page(page, sink, outcome_of(run.stop)),
        Err(_) => Outcome::WriteFault,
    }
}

// Puts the report of a script, also of one that a limit stopped.
fn put_lines<K: Sink>(page: &mut Page, sink: &mut K, run: &DiscoveryRun) -> Result<(), Failed>
    ensures { PutsOn K.taken K.faults page.old page.new sink.old sink.new result (discovery_text run.now.net.network run.now.net.notes run.now.stop) }
{
    let network = run.net.network();
    let noted = NotedTrace {
        trace: network.trace().as_slice(),
        notes: run.net.notes(),
    };
    let ending = ending_of(run.stop);
    put_discovery(page, sink, network.plan(), noted, ending)
}
