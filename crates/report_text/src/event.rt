//! The line of an event that was done.
ghost use Rattle.std.specs.{Prelude.{◌≡◌, ◌∷◌, [], codes}, Fmt.{decimal}};
ghost use Rattle.event_rows.specs.Rows.{event_words};
ghost use Rattle.text_lines.specs.{Lines.{line_of}, Written.{PutsOn}};
ghost use Rattle.text_pieces.specs.Pieces.{hex};

use event_rows::{event_apart, event_shape};
use line_shapes::{circuit_text, edge_text, put_done_row};
use net_base::{Event, Failed, Plan, Sink};
use text_lines::{LineWord, Page};

/// Puts the line of an event that was done: its words behind a pointed bracket. Frames, packets that arrive and deliveries come first, as in `put_entry`.
pub fn put_event<K: Sink>(
    page: &mut Page,
    sink: &mut K,
    plan: &Plan,
    event: &Event,
) -> Result<(), Failed>
    ensures { PutsOn K.taken K.faults page.old page.new sink.old sink.new result (line_of (codes ">" ∷ event_words plan.now event.now)) }
{
    match *event {
        Event::Frame { circuit, ref bytes } => {
            let circuit = circuit_text(plan, circuit);
            put_frame(page, sink, circuit, bytes.as_slice())
        }
        Event::Arrive { packet } => put_arrival(page, sink, packet),
        Event::Deliver { from, to, count } => {
            put_delivery(
                page,
                sink,
                edge_text(plan, from),
                edge_text(plan, to),
                count,
            )
        }
        _ => {
            let (row, values) = event_apart(event);
            put_done_row(page, sink, plan, event_shape(row), &values)
        }
    }
}

// Puts the line of a frame that came.
#[inline(always)]
fn put_frame<K: Sink>(
    page: &mut Page,
    sink: &mut K,
    circuit: &[u8],
    octets: &[u8],
) -> Result<(), Failed>
    ensures { PutsOn K.taken K.faults page.old page.new sink.old sink.new result (line_of (codes ">" ∷ codes "frame" ∷ circuit.now ∷ hex octets.now ∷ [])) }
{
    page.put(sink, b"> frame")?;
    page.put_next(sink, LineWord::Text(circuit))?;
    page.put_last(sink, LineWord::Hex(octets))
}

// Puts the line of a delivery.
fn put_delivery<'a, K: Sink>(
    page: &mut Page,
    sink: &mut K,
    from: &'a [u8],
    to: &'a [u8],
    count: u16,
) -> Result<(), Failed>
    ensures { PutsOn K.taken K.faults page.old page.new sink.old sink.new result (line_of (codes ">" ∷ codes "deliver" ∷ from.now ∷ to.now ∷ decimal count ∷ [])) }
{
    let words = [
        LineWord::Text(b"deliver"),
        LineWord::Text(from),
        LineWord::Text(to),
        LineWord::Number(u64::from(count)),
    ];
    page.put_line(sink, b">", &words)
}

// Puts the line of a packet that arrived.
#[inline(always)]
fn put_arrival<K: Sink>(page: &mut Page, sink: &mut K, packet: u64) -> Result<(), Failed>
    ensures { PutsOn K.taken K.faults page.old page.new sink.old sink.new result (line_of (codes ">" ∷ codes "arrive" ∷ decimal packet ∷ [])) }
{
    page.put(sink, b"> arrive")?;
    page.put_last(sink, LineWord::Number(packet))
}
