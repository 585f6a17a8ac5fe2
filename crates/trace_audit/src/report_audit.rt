//! The report of a run, judged line by line.
ghost use Rattle.std.specs.Prelude.{◌≡◌, ◌<◌, ◌≤◌, ◌+◌, ◌^◌, [], ℕ, List, length, OnOk};
ghost use Rattle.net_base.specs.plan.Accepted.{IsChecked};
ghost use Rattle.plan_names.specs.Planned.{names_of};
ghost use Rattle.report_entries.specs.Answers.{HasBegun};
ghost use Rattle.trace_audit.specs.{Audited.{IsAudited}, Heard.{HasHeardAll, HearsLine, HearsReport, IsAuditOf}};

use crate::AuditStop;
use crate::rule_audit::RuleAudit;
use net_base::{NoMemory, Plan};
use plan_names::{NameLists, PlanNames};
use report_entries::ReportReader;
use std::alloc::Global;

// Reads a line more, and hears its entry; false where it was the last one.
#[tactic(auto, using(crate::proofs::PlacedLemmas::placed, crate::proofs::HeardLemmas::hears_entry, crate::proofs::HeardLemmas::hears_last, crate::proofs::HeardLemmas::hears_break))]
fn hear_next(
    alloc: Global,
    plan: &Plan,
    names: &PlanNames<'_>,
    reader: &mut ReportReader<'_>,
    rule_audit: &mut RuleAudit,
) -> Result<bool, AuditStop>
    requires checked { IsChecked plan.now }
    requires names { names.now ≡ names_of plan.now }
    requires ready { reader.old.waits ≡ [] }
    requires few { reader.old.tally.lines < 2 ^ 63 }
    requires begun { IsAuditOf plan.now rule_audit.old }
    requires short { rule_audit.old.path_audit.line < 2 ^ 63 }
    ensures ready { OnOk result (reader.new.waits ≡ []) }
    ensures begun { OnOk result (IsAuditOf plan.now rule_audit.new) }
    ensures lines { OnOk result (reader.new.tally.lines ≤ reader.old.tally.lines + 1) }
    ensures line { OnOk result (rule_audit.new.path_audit.line ≤ rule_audit.old.path_audit.line + 1) }
    ensures hears { HearsLine plan.now reader.old rule_audit.old reader.new rule_audit.new result }
{
    match reader.next(alloc, plan, names) {
        Ok(Some(entry)) => match rule_audit.hear(alloc, plan, entry) {
            Ok(()) => Ok(true),
            Err(NoMemory) => Err(AuditStop::NoMemory),
        },
        Ok(None) => Ok(false),
        Err(fault) => Err(AuditStop::from(fault)),
    }
}

// Hears the entries of all lines behind the first one.
#[tactic(auto, using(crate::proofs::HeardLemmas::begins_heard, crate::proofs::HeardLemmas::one_less, crate::proofs::HeardLemmas::no_line))]
fn hear_lines(
    alloc: Global,
    plan: &Plan,
    names: &PlanNames<'_>,
    reader: &mut ReportReader<'_>,
    rule_audit: &mut RuleAudit,
) -> Result<(), AuditStop>
    ghost report: { List ℕ }
    requires checked { IsChecked plan.now }
    requires names { names.now ≡ names_of plan.now }
    requires begun { HasBegun report reader.old }
    requires few { length report < 2 ^ 63 }
    requires ready { IsAuditOf plan.now rule_audit.old }
    requires heard { HasHeardAll plan.now [] rule_audit.old }
    requires line { rule_audit.old.path_audit.line ≡ 1 }
    ensures { HearsReport plan.now report rule_audit.new result }
{
    let mut left = reader.octets_left();
    'reading: while left > 0 {
        left -= 1;
        match hear_next(alloc, plan, names, reader, rule_audit) {
            Ok(true) => {}
            Ok(false) => return Ok(()),
            Err(stop) => return Err(stop),
        }
    }
    Err(AuditStop::Form {
        line: reader.lines() + 1,
    })
}

// Audits the lines of a report behind the first one.
#[tactic(auto, using(crate::proofs::HeardLemmas::audited, crate::proofs::HeardLemmas::was_told))]
fn audit_lines(
    alloc: Global,
    plan: &Plan,
    names: &PlanNames<'_>,
    reader: &mut ReportReader<'_>,
) -> Result<(), AuditStop>
    ghost report: { List ℕ }
    requires checked { IsChecked plan.now }
    requires names { names.now ≡ names_of plan.now }
    requires begun { HasBegun report reader.old }
    requires few { length report < 2 ^ 63 }
    ensures { IsAudited plan.now report result }
{
    let mut rule_audit = match RuleAudit::new(alloc, plan) {
        Ok(rule_audit) => rule_audit,
        Err(NoMemory) => return Err(AuditStop::NoMemory),
    };
    match hear_lines(alloc, plan, names, reader, &mut rule_audit) {
        Ok(()) => rule_audit.answer(plan),
        Err(stop) => {
            drop(rule_audit);
            Err(stop)
        }
    }
}

// Audits a report by the names of the plan.
#[tactic(auto, using(crate::proofs::HeardLemmas::begun_of, crate::proofs::HeardLemmas::fault_of))]
fn audit_by(alloc: Global, plan: &Plan, names: &PlanNames<'_>, text: &[u8]) -> Result<(), AuditStop>
    ghost report: { List ℕ }
    requires checked { IsChecked plan.now }
    requires names { names.now ≡ names_of plan.now }
    requires whole { text.now ≡ report }
    requires few { length report < 2 ^ 63 }
    ensures { IsAudited plan.now report result }
{
    match ReportReader::begin(alloc, text) {
        Ok(reader) => {
            let mut reader = reader;
            let answer = audit_lines(alloc, plan, names, &mut reader);
            drop(reader);
            answer
        }
        Err(fault) => Err(AuditStop::from(fault)),
    }
}

/// Audits a report of runs of a checked plan by what it tells alone. Nothing is run.
///
/// A report has a line that names the format, `vplsnet 1`, one line for each entry and a last line: the right counts, or the bound at
/// which the run stopped. `Form` is the first line that breaks this. `Isolated` is the first line of a frame that left and that had
/// not entered before at a circuit of the same service, as the same inner frame. `Split` is the first line of a packet that was sent
/// from one mesh wire to another one, or back by the same wire where the edge is no switching point of it (RFC 4762 section 4.4).
/// `Once` is the first `in` line of a frame that entered a calm service, was flooded, of which no copy was lost or repeated, and that
/// did not leave exactly once at each other circuit of the service that is on, within twelve segments. Of these the first that
/// fails is told, in this order. `NoMemory` is told where memory was refused.
pub fn audit(alloc: Global, plan: &Plan, bytes: &[u8]) -> Result<(), AuditStop>
    requires { IsChecked plan.now }
    ensures { IsAudited plan.now bytes.now result }
{
    let lists = NameLists::of(alloc, plan)?;
    match lists.indexed(alloc) {
        Ok(names) => {
            let answer = audit_by(alloc, plan, &names, bytes);
            drop(names);
            answer
        }
        Err(NoMemory) => Err(AuditStop::NoMemory),
    }
}
