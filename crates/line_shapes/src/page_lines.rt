//! Lines of rows as they are put.
ghost use Rattle.std.specs.Prelude.{◌≡◌, ◌≤◌, ◌∷◌, codes, length};
ghost use Rattle.line_shapes.specs.Shapes.{form_of, row_words};
ghost use Rattle.text_lines.specs.{Lines.{line_of}, Written.{PutsOn}};

use crate::shape::Shape;
use crate::shaped_words::ShapedWords;
use crate::values::Values;
use net_base::{Failed, Plan, Sink};
use text_lines::Page;

/// Puts the line of a row and its values. A place outside the plan is written as the empty text. It takes no memory.
#[inline(never)]
pub fn put_row<K: Sink>(
    page: &mut Page,
    sink: &mut K,
    plan: &Plan,
    shape: Shape<'_>,
    values: &Values,
) -> Result<(), Failed>
    requires few { length shape.1.now ≤ 3 }
    ensures { PutsOn K.taken K.faults page.old page.new sink.old sink.new result (line_of (row_words plan.now (form_of shape.entry) values.now)) }
{
    let words = ShapedWords::of(plan, shape, values);
    page.put_line(sink, shape.0, words.behind())
}

/// Puts the line of what was done, a row and its values behind a pointed bracket, in the same way.
#[inline(never)]
pub fn put_done_row<K: Sink>(
    page: &mut Page,
    sink: &mut K,
    plan: &Plan,
    shape: Shape<'_>,
    values: &Values,
) -> Result<(), Failed>
    requires few { length shape.1.now ≤ 3 }
    ensures { PutsOn K.taken K.faults page.old page.new sink.old sink.new result (line_of (codes ">" ∷ row_words plan.now (form_of shape.entry) values.now)) }
{
    let words = ShapedWords::of(plan, shape, values);
    page.put_line(sink, b">", words.as_slice())
}
