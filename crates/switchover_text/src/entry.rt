//! What is told of a line.
ghost use Rattle.std.specs.Prelude.{◌≡◌, ◌∷◌, [], map};
ghost use Rattle.line_shapes.specs.Words.{edge_name, wire_name};
ghost use Rattle.switchover_text.specs.Text.{answer_word, told_lines, entry_words_told};
ghost use Rattle.text_lines.specs.{Lines.{line_of, word_octets}, Written.{PutsOn}};
ghost use Rattle.text_pieces.specs.Pieces.{hex};

use line_shapes::{edge_word, wire_word};
use net_base::{EdgeId, Failed, Plan, Sink, WireId};
use switchover_model::SwitchEntry;
use text_lines::{LineWord, Page};

// Octets that an edge put to a peer.
fn said<'a>(plan: &'a Plan, edge: EdgeId, peer: EdgeId, octets: &'a [u8]) -> [LineWord<'a>; 3]
    ensures { map word_octets result ≡ edge_name plan.now edge ∷ edge_name plan.now peer ∷ hex octets.now ∷ [] }
{
    [
        edge_word(plan, edge),
        edge_word(plan, peer),
        LineWord::Hex(octets),
    ]
}

// Whether an edge uses a wire.
fn answer_of(on: bool) -> &'static str
    ensures { result.now ≡ answer_word on }
{
    if on { "yes" } else { "no" }
}

// A wire that an edge uses from now on, or no more.
fn uses(plan: &Plan, edge: EdgeId, wire: WireId, on: bool) -> [LineWord<'_>; 3]
    ensures { map word_octets result ≡ edge_name plan.now edge ∷ wire_name plan.now wire ∷ answer_word on ∷ [] }
{
    [
        edge_word(plan, edge),
        wire_word(plan, wire),
        LineWord::Text(answer_of(on).as_bytes()),
    ]
}

// Puts the line of one thing that was told.
fn put_told<K: Sink>(
    page: &mut Page,
    sink: &mut K,
    plan: &Plan,
    entry: &SwitchEntry,
) -> Result<(), Failed>
    ensures { PutsOn K.taken K.faults page.old page.new sink.old sink.new result (line_of (entry_words_told plan.now entry.now)) }
{
    match *entry {
        SwitchEntry::Said {
            edge,
            peer,
            ref octets,
        } => page.put_line(sink, b"said", &said(plan, edge, peer, octets.as_slice())),
        SwitchEntry::Uses { edge, wire, on } => {
            page.put_line(sink, b"uses", &uses(plan, edge, wire, on))
        }
        SwitchEntry::Idle => page.put_line(sink, b"idle", &[]),
    }
}

/// Puts a line for each thing that was told, in order. It takes no memory.
pub fn put_all_told<K: Sink>(
    page: &mut Page,
    sink: &mut K,
    plan: &Plan,
    entries: &[SwitchEntry],
) -> Result<(), Failed>
    ensures { PutsOn K.taken K.faults page.old page.new sink.old sink.new result (told_lines plan.now entries.now) }
{
    for entry in entries {
        put_told(page, sink, plan, entry)?;
    }
    Ok(())
}
