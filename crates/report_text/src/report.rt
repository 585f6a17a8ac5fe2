//! The report of a run.
ghost use Rattle.report_text.specs.Report.{entry_lines, report};
ghost use Rattle.text_lines.specs.Written.{PutsOn};

use crate::ending::Ending;
use crate::entry::put_entry;
use crate::last_line::put_last_line;
use net_base::{Entry, Failed, Plan, Sink};
use text_lines::Page;

/// Puts a line for each entry, in order. A place outside the plan is written as the empty text. It takes no memory. After `Failed` a
/// front of what waited and of the lines was taken, and the sink counted a fault.
pub fn put_entries<K: Sink>(
    page: &mut Page,
    sink: &mut K,
    plan: &Plan,
    trace: &[Entry],
) -> Result<(), Failed>
    ensures { PutsOn K.taken K.faults page.old page.new sink.old sink.new result (entry_lines plan.now trace.now) }
{
    for entry in trace {
        put_entry(page, sink, plan, entry)?;
    }
    Ok(())
}

/// Puts the report of a run: a line that names the format, a line for each entry, and a line that tells how the run ended. A place
/// outside the plan is written as the empty text. It takes no memory. After `Failed` a front of what waited and of the report was
/// taken, and the sink counted a fault.
pub fn put_report<K: Sink>(
    page: &mut Page,
    sink: &mut K,
    plan: &Plan,
    trace: &[Entry],
    ending: Ending,
) -> Result<(), Failed>
    ensures { PutsOn K.taken K.faults page.old page.new sink.old sink.new result (report plan.now trace.now ending) }
{
    if let Err(fault) = page.put(sink, b"vplsnet 1\n") {
        return Err(fault);
    }
    match put_entries(page, sink, plan, trace) {
        Ok(()) => put_last_line(page, sink, trace, ending),
        Err(fault) => Err(fault),
    }
}
