//! The last line of a report.
ghost use Rattle.std.specs.{Prelude.{◌≡◌, ◌∷◌, [], map}, Fmt.{decimal}};
ghost use Rattle.report_text.specs.{Counted.{counts_behind, no_counts}, Report.{last_words}};
ghost use Rattle.text_lines.specs.{Lines.{line_of, word_octets}, Written.{PutsOn}};

use crate::counts::Counts;
use crate::ending::Ending;
use net_base::{Entry, Failed, Sink};
use text_lines::{LineWord, Page};

// The counts of a trace, in one pass.
#[tactic(auto, using(crate::proofs::CountLemmas::within_more))]
fn counts_of(trace: &[Entry]) -> Counts
    ensures { result ≡ counts_behind no_counts trace.now }
{
    let mut counts = Counts::none();
    for entry in trace {
        counts.add(entry);
    }
    counts
}

// A bound at which a run stopped.
fn stopped<'a>(bound: &'a [u8], number: u64) -> [LineWord<'a>; 2]
    ensures { map word_octets result ≡ bound.now ∷ decimal number ∷ [] }
{
    [LineWord::Text(bound), LineWord::Number(number)]
}

/// Puts the last line of a report: the counts of a run that came to its end, or the bound at which it stopped.
pub fn put_last_line<K: Sink>(
    page: &mut Page,
    sink: &mut K,
    trace: &[Entry],
    ending: Ending,
) -> Result<(), Failed>
    ensures { PutsOn K.taken K.faults page.old page.new sink.old sink.new result (line_of (last_words trace.now ending)) }
{
    match ending {
        Ending::End => page.put_line(sink, b"end", &counts_of(trace).words()),
        Ending::Crowded { count } => {
            page.put_line(sink, b"stop", &stopped(b"Crowded", u64::from(count)))
        }
        Ending::TooMuch { weight } => page.put_line(sink, b"stop", &stopped(b"TooMuch", weight)),
    }
}
