//! The report of a script.
ghost use Rattle.std.specs.Prelude.{◌≡◌, ◌++◌};
ghost use Rattle.switchover_text.specs.Text.{done_line, first_told, lines_text, switchover_text, told_behind, told_lines};
ghost use Rattle.text_lines.specs.Written.{PutsOn};

use crate::entry::put_all_told;
use crate::line::put_done;
use net_base::{Failed, List, Plan, Sink};
use switchover_model::{SwitchEntry, SwitchLine};
use text_lines::{LineWord, Page};

// What was told of the next line, and of those behind it.
fn next_told<'a>(told: &'a [List<SwitchEntry>]) -> (&'a [SwitchEntry], &'a [List<SwitchEntry>])
    ensures next { result.0.now ≡ first_told told.now }
    ensures behind { result.1.now ≡ told_behind told.now }
{
    match told {
        [entries, behind @ ..] => (entries.as_slice(), behind),
        [] => (&[], &[]),
    }
}

// Puts a line of the script, and under it what was told of it.
fn put_one<K: Sink>(
    page: &mut Page,
    sink: &mut K,
    plan: &Plan,
    line: &SwitchLine,
    entries: &[SwitchEntry],
) -> Result<(), Failed>
    ensures { PutsOn K.taken K.faults page.old page.new sink.old sink.new result (done_line plan.now line.now ++ told_lines plan.now entries.now) }
{
    match put_done(page, sink, plan, *line) {
        Ok(()) => put_all_told(page, sink, plan, entries),
        Err(fault) => Err(fault),
    }
}

// Puts the lines of the script, each with what was told of it.
fn put_lines<K: Sink>(
    page: &mut Page,
    sink: &mut K,
    plan: &Plan,
    lines: &[SwitchLine],
    told: &[List<SwitchEntry>],
) -> Result<(), Failed>
    ensures { PutsOn K.taken K.faults page.old page.new sink.old sink.new result (lines_text plan.now lines.now told.now) }
{
    let mut rest = told;
    for line in lines {
        let (entries, behind) = next_told(rest);
        put_one(page, sink, plan, line, entries)?;
        rest = behind;
    }
    Ok(())
}

/// Puts the report of a script: a line that names the format, each line of the script and under it a line for each thing that was told of
/// it, and a line that tells how many lines there were. A place outside the plan is written as the empty text. It takes no memory. After
/// `Failed` a front of what waited and of the report was taken, and the sink counted a fault.
#[tactic(auto, unfolding(crate::specs::Text::switchover_text))]
pub fn put_switchover<K: Sink>(
    page: &mut Page,
    sink: &mut K,
    plan: &Plan,
    lines: &[SwitchLine],
    told: &[List<SwitchEntry>],
) -> Result<(), Failed>
    ensures { PutsOn K.taken K.faults page.old page.new sink.old sink.new result (switchover_text plan.now lines.now told.now) }
{
    if let Err(fault) = page.put(sink, b"switchover 1\n") {
        return Err(fault);
    }
    match put_lines(page, sink, plan, lines, told) {
        Ok(()) => page.put_line(
            sink,
            b"end",
            &[LineWord::Labelled(b"lines=", lines.len() as u64)],
        ),
        Err(fault) => Err(fault),
    }
}
