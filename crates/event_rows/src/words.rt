//! The words of an event.
ghost use Rattle.std.specs.Prelude.{◌≡◌};
ghost use Rattle.event_rows.specs.Rows.{event_words};
ghost use Rattle.line_shapes.specs.Told.{words_told};

use crate::rows::{event_apart, event_shape};
use line_shapes::{ShapedWords, circuit_word};
use net_base::{Event, Plan};
use text_lines::LineWord;

/// The words of an event, as a scenario writes it.
pub fn words_of_event<'a>(plan: &'a Plan, event: &'a Event) -> ShapedWords<'a>
    ensures { words_told result ≡ event_words plan.now event.now }
{
    match *event {
        Event::Frame { circuit, ref bytes } => ShapedWords::three([
            LineWord::Text(b"frame"),
            circuit_word(plan, circuit),
            LineWord::Hex(bytes.as_slice()),
        ]),
        _ => {
            let (row, values) = event_apart(event);
            ShapedWords::of(plan, event_shape(row), &values)
        }
    }
}
