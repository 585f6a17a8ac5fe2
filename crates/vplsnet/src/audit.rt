//! The command `audit`: whether a report meets the rules.
ghost use Rattle.std.specs.Prelude.{◌≡◌, [], None};
ghost use Rattle.net_base.specs.plan.Accepted.{IsChecked};
ghost use Rattle.text_lines.specs.Written.{lines_written};
ghost use Rattle.vplsnet.specs.{Answers.{SaysOutcome}, Around.{Has, around, gained}, Asked.{Audit}, Audit.{outcome_of_stop}, Finish.{exit_status}};
ghost use Rattle.vplsnet.specs.{Reads.{GainsReads, IsReadOfNext}, Writing.{EndsAudit}};

use crate::audit_rule::AuditRule;
use crate::finish::Finish;
use crate::outcome::Outcome;
use crate::plan_file::plan_and_file;
use net_base::{Plan, Shelf, Sink};
use std::alloc::Global;
use text_lines::write_text;
use trace_audit::{AuditStop, audit};

/// The most octets of a report.
const REPORT_LIMIT: usize = 67_108_864;

/// Reads a scenario and a report, and writes `audit yes` where the report meets the rules for the plan of the scenario. The events of the
/// scenario are not looked at, and the captures that it plays are not read.
#[tactic(auto, using(crate::proofs::AuditLemmas::file_steps))]
pub fn audit_files<F: Shelf, K: Sink>(
    alloc: Global,
    file: &str,
    report: &str,
    shelf: &mut F,
    sink: &mut K,
) -> Finish
    ensures status { result.status ≡ exit_status result.outcome }
    ensures answers { SaysOutcome (around F.reads F.faults K.taken K.faults shelf.old sink.old shelf.new sink.new) (Audit file.now report.now) result.network result.outcome }
    ensures reads { GainsReads (IsReadOfNext (Has (gained (F.reads shelf.old) (F.reads shelf.new))) (Audit file.now report.now)) (F.reads shelf.old) (F.reads shelf.new) }
{
    match plan_and_file(alloc, shelf, file, report, REPORT_LIMIT) {
        Ok(both) => {
            let octets = both.octets.as_slice();
            Finish::without_run(judge(alloc, &both.scenario.plan, octets, sink))
        }
        Err(outcome) => Finish::without_run(outcome),
    }
}

// Audits a report, and writes what comes of it where it meets all rules.
#[tactic(auto, using(crate::proofs::AuditLemmas::judge_steps))]
fn judge<K: Sink>(alloc: Global, plan: &Plan, report: &[u8], sink: &mut K) -> Outcome
    requires { IsChecked plan.now }
    ensures { EndsAudit plan.now report.now (lines_written (K.taken sink.old) (K.faults sink.old) []) (lines_written (K.taken sink.new) (K.faults sink.new) []) None result }
{
    match audit(alloc, plan, report) {
        Ok(()) => match write_text(sink, b"audit yes\n") {
            Ok(()) => Outcome::Done,
            Err(_) => Outcome::WriteFault,
        },
        Err(stop) => refused(stop),
    }
}

// The outcome of a report that breaks a rule; want of memory breaks none.
fn refused(stop: AuditStop) -> Outcome
    ensures { result ≡ outcome_of_stop stop }
{
    match stop {
        AuditStop::Form { line } => told(line, AuditRule::Form),
        AuditStop::Isolated { line } => told(line, AuditRule::Isolated),
        AuditStop::Split { line } => told(line, AuditRule::Split),
        AuditStop::Once { line } => told(line, AuditRule::Once),
        AuditStop::NoMemory => Outcome::NoMemory,
    }
}

// The outcome of a rule that fails, first in this line.
fn told(line: u64, rule: AuditRule) -> Outcome
    ensures { result ≡ Outcome.AuditRefused line rule }
{
    Outcome::AuditRefused { line, rule }
}
