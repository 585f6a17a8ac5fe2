//! The lines of a script.
ghost use Rattle.std.specs.Prelude.{◌≡◌, ◌<◌, ◌≤◌, length, map, IfOk};
ghost use Rattle.plan_names.specs.Planned.{names_of};
ghost use Rattle.line_shapes.specs.Shapes.{AreValuesOf, AreSmall, form_at, form_of, nth_value};
ghost use Rattle.switchover_model.specs.Planned.{IsLineOf};
ghost use Rattle.switchover_script.specs.Lines.{switch_apart, switch_forms, switch_line_of, switch_made};

use line_shapes::Kind::{Between, Edge, Number};
use line_shapes::{NumberedLine, Shape, Values, read_shaped, shape_at};
use net_base::Plan;
use plan_names::PlanNames;
use script_text::ScriptFault;
use status_exchange::Wish;
use switchover_model::SwitchLine;

/// The shape of each line.
pub fn switch_shapes() -> &'static [Shape<'static>]
    ensures { map form_of result.now ≡ switch_forms }
{
    &[
        Shape(b"connect", &[Edge, Edge]),
        Shape(b"cut", &[Edge, Edge]),
        Shape(b"deliver", &[Edge, Edge, Number(1, 65535)]),
        Shape(b"settle", &[Number(1, 10000)]),
        Shape(b"active", &[Edge, Between]),
        Shape(b"standby", &[Edge, Between]),
        Shape(b"ask", &[Edge, Between]),
    ]
}

/// The shape of a row; behind the last one, that of the empty word.
pub fn switch_shape(row: usize) -> Shape<'static>
    ensures form { form_of result ≡ form_at switch_forms row }
    ensures short { length result.1.now ≤ 3 }
{
    shape_at(switch_shapes(), row)
}

// What an edge calls a wire from now on.
fn set(values: &Values, wish: Wish) -> SwitchLine
    requires edge { nth_value 0 values.now < 65536 }
    requires wire { nth_value 1 values.now < 65536 }
    ensures { result ≡ SwitchLine.Set (record { 0 = nth_value 0 values.now }) (record { 0 = nth_value 1 values.now }) wish }
{
    SwitchLine::Set {
        edge: values.edge(0),
        wire: values.wire(1),
        wish,
    }
}

// The line of a row and its values.
fn made(plan: &Plan, row: usize, values: &Values) -> SwitchLine
    requires row { row < 7 }
    requires fit { AreValuesOf plan.now (form_at switch_forms row).kinds values.now }
    requires small { AreSmall (form_at switch_forms row).kinds values.now }
    ensures exact { result ≡ switch_made row values.now }
    ensures planned { IsLineOf plan.now result }
{
    match row {
        0 => SwitchLine::Connect {
            edge: values.edge(0),
            peer: values.edge(1),
        },
        1 => SwitchLine::Cut {
            edge: values.edge(0),
            peer: values.edge(1),
        },
        2 => SwitchLine::Deliver {
            from: values.edge(0),
            to: values.edge(1),
            count: values.at(2) as u16,
        },
        3 => SwitchLine::Settle {
            count: values.at(0) as u16,
        },
        4 => set(values, Wish::Active),
        5 => set(values, Wish::Standby),
        _ => set(values, Wish::Ask),
    }
}

/// The row of a line, and its values.
pub fn apart(line: SwitchLine) -> (usize, Values)
    ensures exact { result ≡ switch_apart line }
    ensures row { result.0 < 7 }
{
    match line {
        SwitchLine::Connect { edge, peer } => (0, Values::of(&[edge.0 as u64, peer.0 as u64])),
        SwitchLine::Cut { edge, peer } => (1, Values::of(&[edge.0 as u64, peer.0 as u64])),
        SwitchLine::Deliver { from, to, count } => (
            2,
            Values::of(&[from.0 as u64, to.0 as u64, count as u64]),
        ),
        SwitchLine::Settle { count } => (3, Values::of(&[count as u64])),
        SwitchLine::Set { edge, wire, wish } => {
            let row = match wish {
                Wish::Active => 4,
                Wish::Standby => 5,
                Wish::Ask => 6,
            };
            (row, Values::of(&[edge.0 as u64, wire.0 as u64]))
        }
    }
}

/// The line that words are, by the names of its plan. `Bad` comes exactly at the first word that fits no line: one that is missing
/// stands at its number, one too many at its own.
#[tactic(auto, unfolding(crate::specs::Lines::switch_line_of))]
pub fn read_line(plan: &Plan, line: NumberedLine<'_, '_>) -> Result<SwitchLine, ScriptFault>
    requires names { line.names.now ≡ names_of plan.now }
    ensures exact { result ≡ switch_line_of plan.now line.entry.number line.entry.line.now }
    ensures planned { IfOk result (IsLineOf plan.now) }
{
    match read_shaped(plan, line.names, switch_shapes(), line.line) {
        Ok((row, values)) => Ok(made(plan, row, &values)),
        Err(word) => Err(line.bad(word)),
    }
}
