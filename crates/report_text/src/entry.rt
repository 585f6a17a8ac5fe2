//! The line of an entry.
ghost use Rattle.std.specs.{Prelude.{◌≡◌, ◌∷◌, [], codes}, Fmt.{decimal}};
ghost use Rattle.report_text.specs.{Report.{entry_line}, SentWords.{sent_words}};
ghost use Rattle.text_lines.specs.{Lines.{line_of}, Written.{PutsOn}};
ghost use Rattle.text_pieces.specs.Pieces.{hex};

use crate::event::put_event;
use crate::rows::{entry_apart, entry_shape};
use crate::sent_words::SentWords;
use line_shapes::{arrival_text, circuit_text, edge_text, put_row, wire_text};
use net_base::{Entry, Failed, Plan, Sink};
use text_lines::{LineWord, Page};

// Puts the line of a frame that entered.
#[inline(always)]
fn put_entered<K: Sink>(
    page: &mut Page,
    sink: &mut K,
    circuit: &[u8],
    number: u64,
    octets: &[u8],
) -> Result<(), Failed>
    ensures { PutsOn K.taken K.faults page.old page.new sink.old sink.new result (line_of (codes "in" ∷ circuit.now ∷ decimal number ∷ hex octets.now ∷ [])) }
{
    page.put(sink, b"in")?;
    page.put_next(sink, LineWord::Text(circuit))?;
    page.put_next(sink, LineWord::Number(number))?;
    page.put_last(sink, LineWord::Hex(octets))
}

// Puts the line of a frame that left.
#[inline(always)]
fn put_left<K: Sink>(
    page: &mut Page,
    sink: &mut K,
    circuit: &[u8],
    origin: u64,
    hops: u64,
    octets: &[u8],
) -> Result<(), Failed>
    ensures { PutsOn K.taken K.faults page.old page.new sink.old sink.new result (line_of (codes "left" ∷ circuit.now ∷ decimal origin ∷ decimal hops ∷ hex octets.now ∷ [])) }
{
    page.put(sink, b"left")?;
    page.put_next(sink, LineWord::Text(circuit))?;
    page.put_next(sink, LineWord::Number(origin))?;
    page.put_next(sink, LineWord::Number(hops))?;
    page.put_last(sink, LineWord::Hex(octets))
}

// Puts the line of a packet that was sent.
#[inline(always)]
fn put_sent<K: Sink>(page: &mut Page, sink: &mut K, sent: &SentWords<'_>) -> Result<(), Failed>
    ensures { PutsOn K.taken K.faults page.old page.new sink.old sink.new result (line_of (sent_words sent.now)) }
{
    page.put(sink, b"sent")?;
    page.put_next(sink, LineWord::Number(sent.packet))?;
    page.put_next(sink, LineWord::Text(sent.from))?;
    page.put_next(sink, LineWord::Text(sent.to))?;
    page.put_next(sink, LineWord::Text(sent.wire))?;
    page.put_next(sink, LineWord::Text(sent.arrival))?;
    page.put_next(sink, LineWord::Number(sent.origin))?;
    page.put_next(sink, LineWord::Number(sent.hops))?;
    page.put_last(sink, LineWord::Hex(sent.octets))
}

// Puts the line of octets that an edge put towards a peer.
fn put_said<K: Sink>(
    page: &mut Page,
    sink: &mut K,
    from: &[u8],
    to: &[u8],
    octets: &[u8],
) -> Result<(), Failed>
    ensures { PutsOn K.taken K.faults page.old page.new sink.old sink.new result (line_of (codes "said" ∷ from.now ∷ to.now ∷ hex octets.now ∷ [])) }
{
    let words = [
        LineWord::Text(from),
        LineWord::Text(to),
        LineWord::Hex(octets),
    ];
    page.put_line(sink, b"said", &words)
}

/// Puts the line of an entry, in the words of the plan. A place outside the plan is written as the empty text.
///
/// Events, frames and packets come first, since a long trace has little else, and their words are put one by one where the kind is known:
/// those of the other kinds lie on the stack, and room for all of them would be made clear for each line.
pub fn put_entry<K: Sink>(
    page: &mut Page,
    sink: &mut K,
    plan: &Plan,
    entry: &Entry,
) -> Result<(), Failed>
    ensures { PutsOn K.taken K.faults page.old page.new sink.old sink.new result (entry_line plan.now entry.now) }
{
    match *entry {
        Entry::Did { ref event } => put_event(page, sink, plan, event),
        Entry::In {
            circuit,
            number,
            ref bytes,
        } => {
            let circuit = circuit_text(plan, circuit);
            put_entered(page, sink, circuit, number, bytes.as_slice())
        }
        Entry::Left {
            circuit,
            origin,
            hops,
            ref bytes,
        } => {
            let circuit = circuit_text(plan, circuit);
            put_left(page, sink, circuit, origin, hops, bytes.as_slice())
        }
        Entry::Sent {
            packet,
            from,
            to,
            wire: over,
            arrival: by,
            origin,
            hops,
            ref bytes,
        } => {
            let sent = SentWords {
                packet,
                from: edge_text(plan, from),
                to: edge_text(plan, to),
                wire: wire_text(plan, over),
                arrival: arrival_text(plan, by),
                origin,
                hops,
                octets: bytes.as_slice(),
            };
            put_sent(page, sink, &sent)
        }
        Entry::Said {
            from,
            to,
            ref bytes,
        } => put_said(
            page,
            sink,
            edge_text(plan, from),
            edge_text(plan, to),
            bytes.as_slice(),
        ),
        _ => {
            let (row, values) = entry_apart(entry);
            put_row(page, sink, plan, entry_shape(row), &values)
        }
    }
}
