//! The line of a note.
ghost use Rattle.std.specs.{Prelude.{◌≡◌, ◌∷◌, [], codes, map}, Fmt.{decimal}};
ghost use Rattle.line_shapes.specs.Words.{edge_name};
ghost use Rattle.text_lines.specs.{Lines.{word_octets}, Written.{PutsOn}};
ghost use Rattle.text_pieces.specs.Pieces.{hex};
ghost use Rattle.discovery_text.specs.Text.{note_line};

use discovery_script::Note;
use line_shapes::edge_word;
use net_base::{EdgeId, Failed, Plan, Sink};
use text_lines::{LineWord, Page};

// A Hello by its number, with its octets.
fn hello<'a>(
    plan: &'a Plan,
    number: u64,
    from: EdgeId,
    to: EdgeId,
    bytes: &'a [u8],
) -> [LineWord<'a>; 4]
    ensures { map word_octets result ≡ decimal number ∷ edge_name plan.now from ∷ edge_name plan.now to ∷ hex bytes.now ∷ [] }
{
    [
        LineWord::Number(number),
        edge_word(plan, from),
        edge_word(plan, to),
        LineWord::Hex(bytes),
    ]
}

// An adjacency, and what has become of it.
fn adjacency<'a>(plan: &'a Plan, edge: EdgeId, peer: EdgeId, state: &'a [u8]) -> [LineWord<'a>; 3]
    ensures { map word_octets result ≡ edge_name plan.now edge ∷ edge_name plan.now peer ∷ state.now ∷ [] }
{
    [
        edge_word(plan, edge),
        edge_word(plan, peer),
        LineWord::Text(state),
    ]
}

/// Puts the line of a note.
pub fn put_note<K: Sink>(
    page: &mut Page,
    sink: &mut K,
    plan: &Plan,
    note: &Note,
) -> Result<(), Failed>
    ensures { PutsOn K.taken K.faults page.old page.new sink.old sink.new result (note_line plan.now note.now) }
{
    match note {
        Note::Hello {
            number,
            from,
            to,
            bytes,
        } => page.put_line(sink, b"hello", &hello(plan, *number, *from, *to, bytes)),
        Note::Up { edge, peer } => {
            page.put_line(sink, b"adjacency", &adjacency(plan, *edge, *peer, b"up"))
        }
        Note::Down { edge, peer } => {
            page.put_line(sink, b"adjacency", &adjacency(plan, *edge, *peer, b"down"))
        }
        Note::Barred { from, to } => page.put_line(
            sink,
            b"barred",
            &[edge_word(plan, *from), edge_word(plan, *to)],
        ),
        Note::Idle => page.put_line(sink, b"idle", &[]),
    }
}
