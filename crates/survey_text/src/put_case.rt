//! The lines of a case.
ghost use Rattle.std.specs.Prelude.{◌<◌, length};
ghost use Rattle.survey_text.specs.Surveys.{Case, IsWorked};
ghost use Rattle.survey_text.specs.Text.{case_line, case_text, change_text, change_texts};
ghost use Rattle.text_lines.specs.Written.{PutsOn};

use crate::case_words::put_case_words;
use crate::told::count_found;
use crate::words::put_count;
use crate::worked_case::WorkedCase;
use net_base::{Failed, Sink};
use text_lines::{LineWord, Page};

// Puts the first line.
fn put_line<K: Sink>(page: &mut Page, sink: &mut K, worked: WorkedCase<'_>) -> Result<(), Failed>
    ghost case: { Case }
    requires { IsWorked case worked }
    ensures { PutsOn K.taken K.faults page.old page.new sink.old sink.new result (case_line worked.entry.over.plan.now case.before case.faults) }
{
    let found = count_found(worked.over, worked.services, worked.changes);
    put_count(page, sink, b"case", worked.lost)?;
    page.put_next(sink, LineWord::Number(found))?;
    put_case_words(page, sink, worked.over.plan, worked.faults)
}

// Puts the lines of what the case changes in the service at a place.
#[tactic(auto, using(crate::proofs::KnownLemmas::own_service, crate::proofs::KnownLemmas::by_own))]
fn put_change<K: Sink>(
    page: &mut Page,
    sink: &mut K,
    worked: WorkedCase<'_>,
    place: usize,
) -> Result<(), Failed>
    ghost case: { Case }
    requires worked { IsWorked case worked }
    requires place { place < length worked.over.plan.now.services }
    ensures { PutsOn K.taken K.faults page.old page.new sink.old sink.new result (change_text worked.entry.over.plan.now case.before case.faults place) }
{
    let change = &worked.changes[place];
    worked.services[place].put_change(page, sink, worked.over, change)
}

// Puts those of what it changes in all.
fn put_changes<K: Sink>(page: &mut Page, sink: &mut K, worked: WorkedCase<'_>) -> Result<(), Failed>
    ghost case: { Case }
    requires { IsWorked case worked }
    ensures { PutsOn K.taken K.faults page.old page.new sink.old sink.new result (change_texts worked.entry.over.plan.now case.before case.faults 0 worked.entry.over.plan.now.services) }
{
    for service in 0..worked.over.plan.services.len() {
        put_change(page, sink, worked, service)?;
    }
    Ok(())
}

/// Puts the lines of a case, where it is told.
#[tactic(auto, using(text_lines::proofs::WrittenLemmas::goes_none))]
pub fn put_case<K: Sink>(
    page: &mut Page,
    sink: &mut K,
    worked: WorkedCase<'_>,
) -> Result<(), Failed>
    ghost case: { Case }
    requires { IsWorked case worked }
    ensures { PutsOn K.taken K.faults page.old page.new sink.old sink.new result (case_text worked.entry.over.plan.now case.before case.faults) }
{
    if !worked.told {
        return Ok(());
    }
    match put_line(page, sink, worked) {
        Ok(()) => put_changes(page, sink, worked),
        Err(fault) => Err(fault),
    }
}
