//! The words of values.
ghost use Rattle.std.specs.Prelude.{◌≡◌, ◌≤◌, ◌+◌, length, map, take, ◌∷◌};
ghost use Rattle.line_shapes.specs.Shapes.{form_of, row_words, value_word, value_words};
ghost use Rattle.text_lines.specs.Lines.{word_octets};

use crate::choice::word_of;
use crate::kind::Kind;
use crate::names::{circuit_at, edge_at, wire_at};
use crate::shape::Shape;
use crate::values::Values;
use net_base::Plan;
use text_lines::LineWord;

// The word of a value.
fn word(plan: &Plan, kind: Kind, value: u64) -> LineWord<'_>
    ensures { word_octets result ≡ value_word plan.now kind value }
{
    match kind {
        Kind::Edge => LineWord::Text(edge_at(plan, value as usize)),
        Kind::Circuit => LineWord::Text(circuit_at(plan, value as usize)),
        Kind::Wire | Kind::Between => LineWord::Text(wire_at(plan, value as usize)),
        Kind::Number(_, _) => LineWord::Number(value),
        Kind::OneOf(choice) => LineWord::Text(word_of(choice, value).as_bytes()),
    }
}

/// Writes the words of a line into room, and tells how many they are. A place outside the plan is written as the empty text.
pub fn write_words<'a>(
    plan: &'a Plan,
    shape: Shape<'a>,
    values: &Values,
    room: &mut [LineWord<'a>; 4],
) -> usize
    requires few { length shape.1.now ≤ 3 }
    ensures size { length room.new ≡ 4 }
    ensures within { result ≤ 4 }
    ensures words { map word_octets (take result room.new) ≡ row_words plan.now (form_of shape.entry) values.now }
{
    room[0] = LineWord::Text(shape.0);
    let mut count = 1;
    let kinds = shape.1;
    for (place, kind) in kinds.iter().enumerate() {
        room[count] = word(plan, *kind, values.at(place));
        count += 1;
    }
    count
}
