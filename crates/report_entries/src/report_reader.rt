//! Reading a report line by line.
ghost use Rattle.std.specs.Prelude.{◌≡◌, ◌<◌, ◌≤◌, ◌+◌, ◌^◌, [], length, IfOk, IfSome, OnOk};
ghost use Rattle.plan_names.specs.Planned.{names_of};
ghost use Rattle.report_text.specs.Named.{IsEntryNamed};
ghost use Rattle.report_entries.specs.{Answers.{Begins, ReportGoesOn}, Counted.{AreTallied}};

use crate::cut::words_of;
use crate::entry_line::line_entry;
use crate::last_line::is_last_line;
use crate::line_writer::LineWriter;
use crate::tally::Tally;
use crate::{ReportFault, Unread};
use line_shapes::is_word;
use net_base::{Entry, Plan};
use octet_text::cut_at;
use plan_names::PlanNames;
use std::alloc::Global;
use std::marker::Model;

/// A report that is read line by line. Nothing is kept of it but counts.
#[derive(Drop)]
pub struct ReportReader<'a> {
    writer: LineWriter,
    tally: Tally,
    rest: &'a [u8],
}

impl<'a> Model for ReportReader<'a> {
    ghost use Rattle.report_entries.specs.{ReadSoFar.{ReadSoFar}, Counted.{AreTallied}};

    ghost Value = { ReadSoFar };

    ghost view = { λ r. record { tally = r.tally; rest = r.rest.now; waits = r.writer.page } };

    ghost invariant = { λ r. AreTallied r.tally };
}

impl<'a> ReportReader<'a> {
    /// Reads the first line, which names the format. `Form` comes where it is another one, or has no end.
    #[tactic(auto, unfolding(crate::specs::Report::told_of))]
    pub fn begin(alloc: Global, text: &'a [u8]) -> Result<ReportReader<'a>, ReportFault>
        ensures { Begins text.now result }
    {
        let (line, more) = cut_at(b'\n', text);
        let Some(rest) = more else {
            return Err(ReportFault::Form { line: 1 });
        };
        if !is_word(line, "vplsnet 1") {
            return Err(ReportFault::Form { line: 1 });
        }
        match LineWriter::new(alloc) {
            Ok(writer) => Ok(ReportReader {
                writer,
                tally: Tally::first(),
                rest,
            }),
            Err(fault) => Err(ReportFault::from(fault)),
        }
    }

    /// How many octets follow the lines that were read.
    pub fn octets_left(&self) -> usize
        ensures { result ≡ length self.now.rest }
    {
        self.rest.len()
    }

    /// How many lines were read.
    pub fn lines(&self) -> u64
        ensures { result ≡ self.now.tally.lines }
    {
        self.tally.lines
    }

    /// The entry of the next line; `None` where it is a right last line: the right counts, or the bound at which a run stopped, with
    /// nothing behind it. `Form` comes where it is neither, and tells its number, or that of the line behind the last one. After an
    /// error nothing more is read.
    pub fn next(
        &mut self,
        alloc: Global,
        plan: &Plan,
        names: &PlanNames<'_>,
    ) -> Result<Option<Entry>, ReportFault>
        requires names { names.now ≡ names_of plan.now }
        requires few { self.old.tally.lines < 2 ^ 63 }
        requires ready { self.old.waits ≡ [] }
        ensures ready { OnOk result (self.new.waits ≡ []) }
        ensures lines { OnOk result (self.new.tally.lines ≤ self.old.tally.lines + 1) }
        ensures named { IfOk result (λ told. IfSome told (IsEntryNamed plan.now)) }
        ensures goes { ReportGoesOn plan.now self.old self.new result }
    {
        let number = self.tally.lines + 1;
        let (line, more) = cut_at(b'\n', self.rest);
        let Some(more) = more else {
            return Err(ReportFault::Form { line: number });
        };
        let mut room = [line; 10];
        let count = words_of(line, &mut room);
        let (words, _) = room.split_at(count);
        if is_last_line(&mut self.writer, self.tally, line, words)? {
            return if more.is_empty() {
                Ok(None)
            } else {
                Err(ReportFault::Form { line: number + 1 })
            };
        }
        match line_entry(alloc, plan, names, line, words) {
            Ok(entry) => {
                self.tally.add(&entry);
                self.rest = more;
                Ok(Some(entry))
            }
            Err(Unread::NoEntry) => Err(ReportFault::Form { line: number }),
            Err(Unread::NoMemory) => Err(ReportFault::NoMemory),
        }
    }
}
