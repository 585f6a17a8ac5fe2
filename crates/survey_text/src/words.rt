//! Words of lines.
ghost use Rattle.std.specs.Prelude.{◌++◌, codes, map};
ghost use Rattle.survey_text.specs.Text.{count_head, line_head};
ghost use Rattle.text_lines.specs.{Lines.{word_octets}, Written.{PutsOn}};
ghost use Rattle.text_pieces.specs.Pieces.{spaced};

use crate::over::OverService;
use net_base::{Failed, Sink};
use text_lines::{LineWord, Page};

/// Puts a word and the name of a service, with which a line begins.
#[tactic(auto, using(text_lines::proofs::WrittenLemmas::puts_two, text_lines::proofs::WrittenLemmas::cut_first))]
pub fn put_head<K: Sink>(
    page: &mut Page,
    sink: &mut K,
    of: OverService<'_>,
    word: &[u8],
) -> Result<(), Failed>
    ensures { PutsOn K.taken K.faults page.old page.new sink.old sink.new result (line_head of.entry.over.plan.now of.entry.service word.now) }
{
    let name = LineWord::Text(of.over.name_of(of.service));
    match page.put(sink, word) {
        Ok(()) => page.put_next(sink, name),
        Err(fault) => Err(fault),
    }
}

/// Puts a word and a number, with which a line begins.
pub fn put_count<K: Sink>(
    page: &mut Page,
    sink: &mut K,
    word: &[u8],
    number: u64,
) -> Result<(), Failed>
    ensures { PutsOn K.taken K.faults page.old page.new sink.old sink.new result (count_head word.now number) }
{
    match page.put(sink, word) {
        Ok(()) => page.put_next(sink, LineWord::Number(number)),
        Err(fault) => Err(fault),
    }
}

/// Puts words, a blank before each.
pub fn put_words<K: Sink>(
    page: &mut Page,
    sink: &mut K,
    words: &[LineWord<'_>],
) -> Result<(), Failed>
    ensures { PutsOn K.taken K.faults page.old page.new sink.old sink.new result (spaced (map word_octets words.now)) }
{
    for word in words {
        page.put_next(sink, *word)?;
    }
    Ok(())
}

/// Ends a line.
pub fn put_end<K: Sink>(page: &mut Page, sink: &mut K) -> Result<(), Failed>
    ensures { PutsOn K.taken K.faults page.old page.new sink.old sink.new result (codes "\n") }
{
    page.put(sink, b"\n")
}
