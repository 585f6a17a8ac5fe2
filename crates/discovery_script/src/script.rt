//! A whole script.
ghost use Rattle.std.specs.Prelude.{◌≡◌, ◌<◌, ◌^◌, ◌-◌, All, IfOk, length};
ghost use Rattle.net_base.specs.plan.Accepted.{IsChecked};
ghost use Rattle.plan_names.specs.Planned.{names_of};
ghost use Rattle.discovery_script.specs.{Planned.{IsDiscoveryLineOf}, Lines.{discovery_lines_in}};
ghost use Rattle.script_text.specs.Reading.{GivesScript};

use crate::lines::read_line;
use crate::script_line::ScriptLine;
use line_shapes::NumberedLine;
use net_base::{List, NoMemory, Plan};
use plan_names::{NameLists, PlanNames};
use script_text::{ScriptFault, read_lines};
use std::alloc::Global;

// The lines of a script, by the names of its plan.
#[tactic(auto, unfolding(crate::specs::Lines::discovery_lines_in, script_text::specs::Lines::script_said), using(script_text::proofs::CountLemmas::few_lines))]
fn read_with(
    alloc: Global,
    plan: &Plan,
    names: &PlanNames<'_>,
    text: &[u8],
) -> Result<List<ScriptLine>, ScriptFault>
    requires names { names.now ≡ names_of plan.now }
    requires few { length text.now < 2 ^ 32 - 2 }
    ensures exact { GivesScript result (discovery_lines_in plan.now text.now) }
    ensures planned { IfOk result (All (IsDiscoveryLineOf plan.now)) }
{
    let lines = read_lines(alloc, text)?;
    let mut read = List::new(alloc);
    for (place, line) in lines.as_slice().iter().enumerate() {
        read.push(read_line(alloc, plan, NumberedLine::at(names, place, line))?)?;
    }
    Ok(read)
}

/// The lines of a script, by the names of a plan, which are indexed once for all lines. `Bad` comes exactly at the first place that is
/// wrong: all lines are looked at for what is no word before any is looked at for a word that fits no line. A script in which a line is
/// wrong has no lines, so none of them is done.
pub fn read_script(alloc: Global, plan: &Plan, text: &[u8]) -> Result<List<ScriptLine>, ScriptFault>
    requires checked { IsChecked plan.now }
    requires few { length text.now < 2 ^ 32 - 2 }
    ensures exact { GivesScript result (discovery_lines_in plan.now text.now) }
    ensures planned { IfOk result (All (IsDiscoveryLineOf plan.now)) }
{
    let Ok(lists) = NameLists::of(alloc, plan) else {
        return Err(ScriptFault::NoMemory);
    };
    match lists.indexed(alloc) {
        Ok(names) => {
            let lines = read_with(alloc, plan, &names, text);
            drop(names);
            lines
        }
        Err(NoMemory) => Err(ScriptFault::NoMemory),
    }
}
