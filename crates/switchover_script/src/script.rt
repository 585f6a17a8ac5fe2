//! A whole script.
ghost use Rattle.std.specs.Prelude.{◌≡◌, ◌<◌, ◌^◌, ◌-◌, All, IfOk, length};
ghost use Rattle.plan_names.specs.Planned.{names_of};
ghost use Rattle.net_base.specs.plan.Accepted.{IsChecked};
ghost use Rattle.script_text.specs.Reading.{GivesScript};
ghost use Rattle.switchover_model.specs.Planned.{IsLineOf};
ghost use Rattle.switchover_script.specs.Lines.{switch_lines_in};

use crate::lines::read_line;
use line_shapes::NumberedLine;
use net_base::{List, NoMemory, Plan};
use plan_names::{NameLists, PlanNames};
use script_text::{ScriptFault, read_lines};
use std::alloc::Global;
use switchover_model::SwitchLine;

// The lines of a script, by the names of its plan.
#[tactic(auto, unfolding(crate::specs::Lines::switch_lines_in, script_text::specs::Lines::script_said), using(script_text::proofs::CountLemmas::few_lines))]
fn read_with(
    alloc: Global,
    plan: &Plan,
    names: &PlanNames<'_>,
    text: &[u8],
) -> Result<List<SwitchLine>, ScriptFault>
    requires names { names.now ≡ names_of plan.now }
    requires few { length text.now < 2 ^ 32 - 2 }
    ensures exact { GivesScript result (switch_lines_in plan.now text.now) }
    ensures planned { IfOk result (All (IsLineOf plan.now)) }
{
    let lines = read_lines(alloc, text)?;
    let mut read = List::new(alloc);
    for (place, line) in lines.as_slice().iter().enumerate() {
        read.push(read_line(plan, NumberedLine::at(names, place, line))?)?;
    }
    Ok(read)
}

/// The lines of a script, by the names of a plan, which are indexed once for all lines. `Bad` comes exactly at the first place that is
/// wrong: all lines are looked at for what is no word before any is looked at for a word that fits no line. A wire of more than two
/// edges fits none, since it takes no part in independent mode (RFC 6870 section 4). A script in which a line is wrong has no lines, so
/// none of them is done.
pub fn read_script(alloc: Global, plan: &Plan, text: &[u8]) -> Result<List<SwitchLine>, ScriptFault>
    requires checked { IsChecked plan.now }
    requires few { length text.now < 2 ^ 32 - 2 }
    ensures exact { GivesScript result (switch_lines_in plan.now text.now) }
    ensures planned { IfOk result (All (IsLineOf plan.now)) }
{
    let Ok(lists) = NameLists::of(alloc, plan) else {
        return Err(ScriptFault::NoMemory);
    };
    match lists.indexed(alloc) {
        Ok(names) => {
            let lines = read_with(alloc, plan, &names, text);
            drop(names);
            lines
        }
        Err(NoMemory) => Err(ScriptFault::NoMemory),
    }
}
