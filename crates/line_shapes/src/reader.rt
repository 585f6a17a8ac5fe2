//! The values of lines.
ghost use Rattle.std.specs.Prelude.{◌≡◌, ◌<◌, ◌≤◌, ◌+◌, bytes_eq, length, map, position, slice_get, option_and_then, IfOk, IfSome};
ghost use Rattle.plan_names.specs.Planned.{names_of};
ghost use Rattle.line_shapes.specs.Shapes.{AreValuesOf, AreShort, AreSmall, IsSmall, between_two, first_said, form_at, form_of, word_found, line_said, row_of_word, value_in, values_said};

use crate::choice::place_of;
use crate::kind::Kind;
use crate::shape::Shape;
use crate::values::Values;
use crate::words::Words;
use net_base::Plan;
use plan_names::{PlanNames, decimal};

// A place as a value.
fn value_of(place: Option<u16>) -> Option<u64>
    ensures exact { result ≡ place }
    ensures small { IfSome result (λ value. value < 65536) }
{
    match place {
        Some(place) => Some(place as u64),
        None => None,
    }
}

// The wire at a place, where it has two edges.
#[tactic(auto, unfolding(crate::specs::Shapes::between_two))]
fn between(plan: &Plan, place: u16) -> Option<u64>
    ensures exact { result ≡ between_two plan.now place }
    ensures small { IfSome result (λ value. value < 65536) }
{
    match plan.wires.get(place as usize) {
        Some(row) => {
            if row.path.len() == 2 {
                Some(place as u64)
            } else {
                None
            }
        }
        None => None,
    }
}

// The value that a word says.
#[inline(always)]
fn value(plan: &Plan, names: &PlanNames<'_>, kind: Kind, word: &[u8]) -> Option<u64>
    requires names { names.now ≡ names_of plan.now }
    ensures exact { result ≡ value_in plan.now kind word.now }
    ensures small { IfSome result (IsSmall kind) }
{
    match kind {
        Kind::Edge => value_of(names.edges.place(word)),
        Kind::Circuit => value_of(names.circuits.place(word)),
        Kind::Wire => value_of(names.wires.place(word)),
        Kind::Between => match names.wires.place(word) {
            Some(place) => between(plan, place),
            None => None,
        },
        Kind::Number(low, high) => decimal(low, high, word),
        Kind::OneOf(choice) => place_of(choice, word),
    }
}

// The value of the word at an index from 0; its number, counted from 1, where it is missing or says none.
#[inline(always)]
fn value_at_word<W: Words>(
    plan: &Plan,
    names: &PlanNames<'_>,
    kind: Kind,
    line: &W,
    at: usize,
) -> Result<u64, u32>
    requires names { names.now ≡ names_of plan.now }
    requires few { at ≤ 3 }
    ensures exact { result ≡ word_found (at + 1) (option_and_then (value_in plan.now kind) (slice_get (W.words line.now) at)) }
    ensures small { IfOk result (IsSmall kind) }
{
    match line.word_at(at) {
        Some(word) => match value(plan, names, kind, word) {
            Some(value) => Ok(value),
            None => Err(at as u32 + 1),
        },
        None => Err(at as u32 + 1),
    }
}

// The values of the words behind the first one.
#[tactic(auto, using(crate::proofs::ValueLemmas::small_all))]
fn read_values<W: Words>(
    plan: &Plan,
    names: &PlanNames<'_>,
    kinds: &[Kind],
    line: &W,
) -> Result<Values, u32>
    requires names { names.now ≡ names_of plan.now }
    requires few { length kinds.now ≤ 3 }
    ensures exact { result ≡ values_said plan.now (W.words line.now) 1 kinds.now }
    ensures small { IfOk result (AreSmall kinds.now) }
{
    let mut values = Values::new();
    for (place, kind) in kinds.iter().enumerate() {
        match value_at_word(plan, names, *kind, line, place + 1) {
            Ok(value) => values.push(value),
            Err(word) => return Err(word),
        }
    }
    let at = kinds.len() + 1;
    match line.word_at(at) {
        Some(_) => Err(at as u32 + 1),
        None => Ok(values),
    }
}

// Whether a shape is that of a first word. Most others have another length.
#[inline(always)]
#[tactic(auto, using(crate::proofs::RowLemmas::other_length))]
fn begins(shape: &Shape<'_>, word: &[u8]) -> bool
    ensures { result ≡ bytes_eq shape.now.0.now word.now }
{
    shape.0.len() == word.len() && shape.0 == word
}

// The place of the first shape of a word.
fn place_of_word(shapes: &[Shape<'_>], word: &[u8]) -> Option<usize>
    ensures exact { result ≡ position (λ shape. bytes_eq shape.0.now word.now) shapes.now }
    ensures within { IfSome result (λ row. row < length shapes.now) }
{
    shapes.iter().position(|shape| begins(shape, word))
}

// The row of a first word.
#[tactic(auto, using(crate::proofs::RowLemmas::row_is))]
fn row(shapes: &[Shape<'_>], word: &[u8]) -> Option<usize>
    ensures exact { result ≡ row_of_word (map form_of shapes.now) word.now }
    ensures within { IfSome result (λ row. row < length shapes.now) }
{
    place_of_word(shapes, word)
}

/// The shape of a row; behind the last one, that of the empty word.
#[tactic(auto, using(crate::proofs::RowLemmas::at_row, crate::proofs::RowLemmas::short_row, crate::proofs::RowLemmas::no_row))]
pub fn shape_at<'a>(shapes: &[Shape<'a>], row: usize) -> Shape<'a>
    requires { AreShort (map form_of shapes.now) }
    ensures form { form_of result ≡ form_at (map form_of shapes.now) row }
    ensures short { length result.1.now ≤ 3 }
{
    if row >= shapes.len() {
        return Shape(&[], &[]);
    }
    shapes[row]
}

// The first word.
fn first<W: Words>(line: &W) -> &[u8]
    ensures { result.now ≡ first_said (W.words line.now) }
{
    match line.word_at(0) {
        Some(word) => word,
        None => b"",
    }
}

// The row of a line and its values, or the number of the first word that does not fit.
#[tactic(auto, unfolding(crate::specs::Shapes::line_said))]
fn read_row<W: Words>(
    plan: &Plan,
    names: &PlanNames<'_>,
    shapes: &[Shape<'_>],
    line: &W,
) -> Result<(usize, Values), u32>
    requires names { names.now ≡ names_of plan.now }
    requires few { AreShort (map form_of shapes.now) }
    ensures exact { result ≡ line_said plan.now (map form_of shapes.now) (W.words line.now) }
    ensures within { IfOk result (λ read. read.0 < length shapes.now) }
    ensures small { IfOk result (λ read. AreSmall (form_at (map form_of shapes.now) read.0).kinds read.1) }
{
    match row(shapes, first(line)) {
        Some(row) => match read_values(plan, names, shape_at(shapes, row).1, line) {
            Ok(values) => Ok((row, values)),
            Err(word) => Err(word),
        },
        None => Err(1),
    }
}

/// The row of a line, and the values of the words behind its first one; or the number, from 1, of the first word that does not fit: one
/// that is missing stands at its number, one too many at its own.
pub fn read_shaped<W: Words>(
    plan: &Plan,
    names: &PlanNames<'_>,
    shapes: &[Shape<'_>],
    line: &W,
) -> Result<(usize, Values), u32>
    requires names { names.now ≡ names_of plan.now }
    requires few { AreShort (map form_of shapes.now) }
    ensures exact { result ≡ line_said plan.now (map form_of shapes.now) (W.words line.now) }
    ensures within { IfOk result (λ read. read.0 < length shapes.now) }
    ensures fit { IfOk result (λ read. AreValuesOf plan.now (form_at (map form_of shapes.now) read.0).kinds read.1) }
    ensures small { IfOk result (λ read. AreSmall (form_at (map form_of shapes.now) read.0).kinds read.1) }
{
    read_row(plan, names, shapes, line)
}
