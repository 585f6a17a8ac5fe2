//! The last line of a report.
ghost use Rattle.std.specs.{Prelude.{◌≡◌, ◌++◌, ◌&&◌, ◌||◌, [], codes, map, IfOk, OnOk}, List.{list_all}, Str.{bytes_eq}};
ghost use Rattle.plan_names.specs.Decimal.{is_decimal, is_digit_of};
ghost use Rattle.report_entries.specs.{Reading.{line_words}, Report.{ends_report, is_stop, tally_line}};

use crate::line_writer::LineWriter;
use crate::tally::Tally;
use line_shapes::is_word;
use net_base::{Failed, NoMemory};

// Whether all are digits.
fn are_digits(text: &[u8]) -> bool
    ensures { result ≡ list_all is_digit_of text.now }
{
    text.iter().all(|octet| octet.is_ascii_digit())
}

// Whether this is a decimal number without leading zeros, of any size.
fn is_number(text: &[u8]) -> bool
    ensures { result ≡ is_decimal text.now }
{
    if text.is_empty() || !are_digits(text) {
        return false;
    }
    if text[0] == b'0' && text.len() > 1 {
        return false;
    }
    true
}

// Whether words tell a bound at which a run stopped.
fn is_stop_bound(words: &[&[u8]]) -> bool
    ensures { result ≡ is_stop (map (λ w. w.now) words.now) }
{
    match words {
        [bound, number] => {
            (is_word(bound, "Crowded") || is_word(bound, "TooMuch")) && is_number(number)
        }
        _ => false,
    }
}

// Whether a line and a line feed are these two parts.
fn are_parts(front: &[u8], back: &[u8], line: &[u8]) -> bool
    ensures { result ≡ (bytes_eq front.now line.now && bytes_eq back.now (codes "\n")) }
{
    front == line && back == b"\n".as_slice()
}

// Whether a line was written so, with its line feed.
#[tactic(auto, using(crate::proofs::ReportLemmas::same_line, crate::proofs::ReportLemmas::other_line))]
fn is_line(written: &[u8], line: &[u8]) -> bool
    ensures { result ≡ bytes_eq written.now (line.now ++ codes "\n") }
{
    if written.len() != line.len() + 1 {
        return false;
    }
    let (front, back) = written.split_at(line.len());
    are_parts(front, back, line)
}

// Whether a line tells these counts.
fn tells_tally(writer: &mut LineWriter, tally: Tally, line: &[u8]) -> Result<bool, NoMemory>
    requires ready { writer.old.page ≡ [] }
    ensures ready { OnOk result (writer.new.page ≡ []) }
    ensures tells { IfOk result (λ tells. tells ≡ bytes_eq (tally_line tally) (line.now ++ codes "\n")) }
{
    match writer.write_tally(tally) {
        Ok(()) => Ok(is_line(writer.line(), line)),
        Err(Failed) => Err(NoMemory),
    }
}

/// Whether a line with these words is a right last one behind these counts.
#[tactic(auto, unfolding(crate::specs::Report::ends_report))]
pub fn is_last_line(
    writer: &mut LineWriter,
    tally: Tally,
    line: &[u8],
    words: &[&[u8]],
) -> Result<bool, NoMemory>
    requires words { map (λ w. w.now) words.now ≡ line_words line.now }
    requires ready { writer.old.page ≡ [] }
    ensures ready { OnOk result (writer.new.page ≡ []) }
    ensures last { IfOk result (λ last. last ≡ ends_report tally line.now) }
{
    match words {
        [kind, words @ ..] => {
            if is_word(kind, "end") {
                tells_tally(writer, tally, line)
            } else {
                Ok(is_word(kind, "stop") && is_stop_bound(words))
            }
        }
        [] => Ok(false),
    }
}
