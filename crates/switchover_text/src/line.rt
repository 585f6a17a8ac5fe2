//! A line of the script.
ghost use Rattle.std.specs.Prelude.{◌≡◌};
ghost use Rattle.switchover_text.specs.Text.{done_line};
ghost use Rattle.text_lines.specs.Written.{PutsOn};

use line_shapes::put_done_row;
use net_base::{Failed, Plan, Sink};
use switchover_model::SwitchLine;
use switchover_script::{apart, switch_shape};
use text_lines::Page;

/// Puts a line of the script, in the words of the plan. A place outside the plan is written as the empty text. It takes no memory.
pub fn put_done<K: Sink>(
    page: &mut Page,
    sink: &mut K,
    plan: &Plan,
    line: SwitchLine,
) -> Result<(), Failed>
    ensures { PutsOn K.taken K.faults page.old page.new sink.old sink.new result (done_line plan.now line) }
{
    let (row, values) = apart(line);
    put_done_row(page, sink, plan, switch_shape(row), &values)
}
