//! Counts of lines and entries.
ghost use Rattle.std.specs.Prelude.{◌≡◌, ◌<◌, ◌^◌};
ghost use Rattle.report_entries.specs.Counted.{AreTallied, tallied, first_counts};

use net_base::Entry;
use report_text::Counts;

/// How many lines were read, and how many entries they told of each kind that the last line of a report counts.
#[derive(Clone, Copy, Debug, PartialEq, Eq)]
pub struct Tally {
    pub lines: u64,
    pub counts: Counts,
}

impl Tally {
    /// The line that names the format was read.
    pub fn first() -> Tally
        ensures { result ≡ first_counts }
    {
        Tally {
            lines: 1,
            counts: Counts::none(),
        }
    }

    /// Counts the line of an entry more.
    #[tactic(auto, using(report_text::proofs::CountLemmas::within_more))]
    pub fn add(&mut self, entry: &Entry)
        requires counted { AreTallied self.old }
        requires few { self.old.lines < 2 ^ 63 }
        ensures is { self.new ≡ tallied entry.now self.old }
        ensures counted { AreTallied self.new }
    {
        self.counts.add(entry);
        self.lines += 1;
    }
}
