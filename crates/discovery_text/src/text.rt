//! The report of a script.
ghost use Rattle.std.specs.Prelude.{◌≡◌, ◌++◌, ◌-◌, take, drop};
ghost use Rattle.report_text.specs.Report.{entry_lines};
ghost use Rattle.text_lines.specs.Written.{PutsOn};
ghost use Rattle.discovery_text.specs.Text.{discovery_report, note_line, noted_lines};

use crate::note::put_note;
use crate::noted_trace::NotedTrace;
use discovery_script::PlacedNote;
use net_base::{Entry, Failed, Plan, Sink};
use report_text::{Ending, put_entries, put_last_line};
use text_lines::Page;

// The first so many entries, and those behind them.
#[tactic(auto, using(crate::proofs::NoteLemmas::all_before, crate::proofs::NoteLemmas::none_behind))]
fn cut_at(trace: &[Entry], count: usize) -> (&[Entry], &[Entry])
    ensures front { result.0.now ≡ take count trace.now }
    ensures behind { result.1.now ≡ drop count trace.now }
{
    if count < trace.len() {
        trace.split_at(count)
    } else {
        (trace, &[])
    }
}

// Puts a line for each of these entries, and then the note.
fn put_placed<K: Sink>(
    page: &mut Page,
    sink: &mut K,
    plan: &Plan,
    front: &[Entry],
    placed: &PlacedNote,
) -> Result<(), Failed>
    ensures { PutsOn K.taken K.faults page.old page.new sink.old sink.new result (entry_lines plan.now front.now ++ note_line plan.now placed.now.note) }
{
    match put_entries(page, sink, plan, front) {
        Ok(()) => put_note(page, sink, plan, &placed.note),
        Err(fault) => Err(fault),
    }
}

// Puts a line for each entry, and one for each note in its place.
fn put_noted<K: Sink>(
    page: &mut Page,
    sink: &mut K,
    plan: &Plan,
    trace: &[Entry],
    notes: &[PlacedNote],
) -> Result<(), Failed>
    ensures { PutsOn K.taken K.faults page.old page.new sink.old sink.new result (noted_lines plan.now 0 trace.now notes.now) }
{
    let mut rest = trace;
    let mut written = 0;
    for placed in notes {
        let count = placed.entries.saturating_sub(written);
        let (front, behind) = cut_at(rest, count);
        put_placed(page, sink, plan, front, placed)?;
        rest = behind;
        written = placed.entries;
    }
    put_entries(page, sink, plan, rest)
}

/// Puts the report of a script: a line that names the format, a line for each entry of the network's trace, between them a line for
/// each note behind as many entries as it tells, and a line that tells how the run ended. A place outside the plan is written as the
/// empty text. It takes no memory. After `Failed` a front of what waited and of the report was taken, and the sink counted a fault.
pub fn put_discovery<K: Sink>(
    page: &mut Page,
    sink: &mut K,
    plan: &Plan,
    noted: NotedTrace<'_>,
    ending: Ending,
) -> Result<(), Failed>
    ensures { PutsOn K.taken K.faults page.old page.new sink.old sink.new result (discovery_report plan.now noted.entry.trace.now noted.entry.notes.now ending) }
{
    if let Err(fault) = page.put(sink, b"vplsnet 1\n") {
        return Err(fault);
    }
    match put_noted(page, sink, plan, noted.trace, noted.notes) {
        Ok(()) => put_last_line(page, sink, noted.trace, ending),
        Err(fault) => Err(fault),
    }
}
