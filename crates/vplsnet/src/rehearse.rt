//! The command `rehearse`: the counts of the run of a generated scenario.
ghost use Rattle.std.specs.{Prelude.{◌++◌, ◌∷◌, [], codes}, Fmt.{decimal}};
ghost use Rattle.report_text.specs.Report.{counts_line};
ghost use Rattle.text_lines.specs.{Lines.{line_of}, Written.{PutsOn}};

use net_base::{Entry, Failed, Sink};
use report_text::{Ending, put_last_line};
use text_lines::{LineWord, Page};

/// Puts the seed and the counts of a trace.
pub fn put_counts<K: Sink>(
    page: &mut Page,
    sink: &mut K,
    trace: &[Entry],
    seed: u64,
) -> Result<(), Failed>
    ensures { PutsOn K.taken K.faults page.old page.new sink.old sink.new result (line_of (codes "rehearse" ∷ decimal seed ∷ []) ++ counts_line trace.now) }
{
    match page.put_line(sink, b"rehearse", &[LineWord::Number(seed)]) {
        Ok(()) => put_last_line(page, sink, trace, Ending::End),
        Err(fault) => Err(fault),
    }
}
