//! The last line that counts ask for, to be compared.
ghost use Rattle.std.specs.Prelude.{◌≡◌, [], IfOk, OnOk};
ghost use Rattle.report_entries.specs.Report.{tally_line};

use crate::line_sink::LineSink;
use crate::tally::Tally;
use net_base::{Failed, NoMemory};
use std::alloc::Global;
use text_lines::Page;

/// Writes the line of counts, into room that it keeps.
#[derive(Drop)]
pub struct LineWriter {
    page: Page,
    sink: LineSink,
}

// Writes the line that tells counts over a page on which nothing waits.
#[tactic(auto, using(crate::proofs::WrittenLemmas::whole_line))]
fn write_counts(page: &mut Page, sink: &mut LineSink, tally: Tally) -> Result<(), Failed>
    requires { page.old ≡ [] }
    ensures none { OnOk result (page.new ≡ []) }
    ensures line { OnOk result (sink.new.octets ≡ tally_line tally) }
{
    sink.clear();
    page.put_line(sink, b"end", &tally.counts.words())?;
    page.flush(sink)
}

impl LineWriter {
    /// A writer that has written nothing.
    pub fn new(alloc: Global) -> Result<LineWriter, NoMemory>
        ensures { IfOk result (λ writer. writer.page ≡ []) }
    {
        match Page::new(alloc) {
            Ok(page) => Ok(LineWriter {
                page,
                sink: LineSink::new(alloc),
            }),
            Err(NoMemory) => Err(NoMemory),
        }
    }

    /// The line that was written.
    pub fn line(&self) -> &[u8]
        ensures { result.now ≡ self.now.sink.octets }
    {
        self.sink.octets()
    }

    /// Writes the line that tells these counts. `Failed` comes where memory is refused.
    pub fn write_tally(&mut self, tally: Tally) -> Result<(), Failed>
        requires { self.old.page ≡ [] }
        ensures none { OnOk result (self.new.page ≡ []) }
        ensures line { OnOk result (self.new.sink.octets ≡ tally_line tally) }
    {
        write_counts(&mut self.page, &mut self.sink, tally)
    }
}
