//! The lines of a script.
ghost use Rattle.std.specs.Prelude.{◌≡◌, ◌<◌, map, IfOk};
ghost use Rattle.plan_names.specs.Planned.{names_of};
ghost use Rattle.discovery_script.specs.Planned.{IsDiscoveryLineOf};
ghost use Rattle.discovery_script.specs.Lines.{discovery_forms, discovery_line_of, discovery_made, do_in, is_barred};
ghost use Rattle.line_shapes.specs.{Script.{made_at}, Shapes.{AreSmall, AreValuesOf, form_at, form_of, line_said}};
ghost use Rattle.script_text.specs.Reading.{GivesScript};

use crate::script_line::ScriptLine;
use command_text::is_same;
use line_shapes::Kind::{Edge, Number};
use line_shapes::{NumberedLine, Shape, Values, read_shaped};
use net_base::Plan;
use scenario_text::{WordFault, read_command_with};
use script_text::{ScriptFault, first};
use std::alloc::Global;

// The shape of each line but `do`.
fn discovery_shapes() -> &'static [Shape<'static>]
    ensures { map form_of result.now ≡ discovery_forms }
{
    &[
        Shape(b"hello", &[Edge, Edge, Number(0, 65535)]),
        Shape(b"bring", &[Number(1, u64::MAX)]),
        Shape(b"open", &[Edge, Edge]),
        Shape(b"tick", &[]),
    ]
}

// The line of a row and its values.
fn made(plan: &Plan, row: usize, values: &Values) -> ScriptLine
    requires row { row < 4 }
    requires fit { AreValuesOf plan.now (form_at discovery_forms row).kinds values.now }
    requires small { AreSmall (form_at discovery_forms row).kinds values.now }
    ensures exact { result ≡ discovery_made row values.now }
    ensures planned { IsDiscoveryLineOf plan.now result }
{
    match row {
        0 => ScriptLine::Hello {
            from: values.edge(0),
            to: values.edge(1),
            hold: values.at(2) as u16,
        },
        1 => ScriptLine::Bring {
            number: values.at(0),
        },
        2 => ScriptLine::Open {
            from: values.edge(0),
            to: values.edge(1),
        },
        _ => ScriptLine::Tick,
    }
}

// A line that is a row.
fn row(plan: &Plan, line: NumberedLine<'_, '_>) -> Result<ScriptLine, ScriptFault>
    requires names { line.names.now ≡ names_of plan.now }
    ensures exact { result ≡ made_at discovery_made line.entry.number (line_said plan.now discovery_forms line.entry.line.now) }
    ensures planned { IfOk result (IsDiscoveryLineOf plan.now) }
{
    match read_shaped(plan, line.names, discovery_shapes(), line.line) {
        Ok((row, values)) => Ok(made(plan, row, &values)),
        Err(word) => Err(line.bad(word)),
    }
}

// Whether a script may not say a command of this first word.
fn is_barred_word(word: &str) -> bool
    ensures { result ≡ is_barred word.now }
{
    (is_same(word, "connect") || is_same(word, "tick")) || is_same(word, "play")
}

// `do WORDS`, a command of a scenario but `connect`, `tick` and `play`.
#[tactic(auto, unfolding(crate::specs::Lines::do_in), using(crate::proofs::CommandLemmas::wrong_early, crate::proofs::CommandLemmas::is_scripted))]
fn command(
    alloc: Global,
    plan: &Plan,
    line: NumberedLine<'_, '_>,
) -> Result<ScriptLine, ScriptFault>
    requires names { line.names.now ≡ names_of plan.now }
    ensures exact { GivesScript result (do_in plan.now line.entry.number line.entry.line.now) }
    ensures planned { IfOk result (IsDiscoveryLineOf plan.now) }
{
    let text = line.line.rest();
    if is_barred_word(first(text)) {
        return Err(line.bad(2));
    }
    match read_command_with(alloc, plan, line.names, text) {
        Ok(command) => Ok(ScriptLine::Do(command)),
        Err(WordFault::Bad(word)) => Err(line.bad(word + 1)),
        Err(WordFault::NoMemory) => Err(ScriptFault::NoMemory),
    }
}

/// The line that words are. `Bad` comes exactly at the first word that fits no line: one that is missing stands at its number, one too
/// many at its own.
#[tactic(auto, unfolding(crate::specs::Lines::discovery_line_of))]
pub fn read_line(
    alloc: Global,
    plan: &Plan,
    line: NumberedLine<'_, '_>,
) -> Result<ScriptLine, ScriptFault>
    requires names { line.names.now ≡ names_of plan.now }
    ensures exact { GivesScript result (discovery_line_of plan.now line.entry.number line.entry.line.now) }
    ensures planned { IfOk result (IsDiscoveryLineOf plan.now) }
{
    if is_same(line.first(), "do") {
        command(alloc, plan, line)
    } else {
        row(plan, line)
    }
}
