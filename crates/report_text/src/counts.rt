//! Counts of entries.
ghost use Rattle.std.specs.Prelude.{◌≡◌, ◌+◌, ◌^◌, ◌-◌, ℕ, map};
ghost use Rattle.report_text.specs.{Counted.{AreWithin, counted, no_counts}, Report.{counts_told}};
ghost use Rattle.text_lines.specs.Lines.{word_octets};

use net_base::Entry;
use text_lines::LineWord;

/// How many entries of each kind that the last line counts there are.
#[derive(Clone, Copy, Debug, PartialEq, Eq)]
pub struct Counts {
    /// Events that were done.
    pub events: u64,
    /// Frames that entered.
    pub entered: u64,
    /// Frames that left.
    pub left: u64,
    /// Packets that were sent.
    pub sent: u64,
    /// Frames and packets that were dropped.
    pub dropped: u64,
}

impl Counts {
    /// No entry of any kind.
    pub fn none() -> Counts
        ensures { result ≡ no_counts }
    {
        Counts {
            events: 0,
            entered: 0,
            left: 0,
            sent: 0,
            dropped: 0,
        }
    }

    /// Counts one entry more.
    #[tactic(auto, using(crate::proofs::CountLemmas::counted_within))]
    pub fn add(&mut self, entry: &Entry)
        requires { AreWithin (2 ^ 63 - 1) self.old }
        ensures is { self.new ≡ counted entry.now self.old }
        ensures within { (most : ℕ) → AreWithin most self.old → AreWithin (most + 1) self.new }
    {
        self.add_kind(entry);
    }

    // Counts it by its kind.
    fn add_kind(&mut self, entry: &Entry)
        requires { AreWithin (2 ^ 63 - 1) self.old }
        ensures { self.new ≡ counted entry.now self.old }
    {
        match entry {
            Entry::Did { .. } => self.events += 1,
            Entry::In { .. } => self.entered += 1,
            Entry::Left { .. } => self.left += 1,
            Entry::Sent { .. } => self.sent += 1,
            Entry::Dropped { .. } => self.dropped += 1,
            _ => {}
        }
    }

    /// The words that tell these counts.
    pub fn words<'a>(self) -> [LineWord<'a>; 5]
        ensures { map word_octets result ≡ counts_told self }
    {
        [
            LineWord::Labelled(b"events=", self.events),
            LineWord::Labelled(b"in=", self.entered),
            LineWord::Labelled(b"left=", self.left),
            LineWord::Labelled(b"sent=", self.sent),
            LineWord::Labelled(b"dropped=", self.dropped),
        ]
    }
}
