//! One command.
ghost use Rattle.std.specs.Prelude.{◌≡◌, IfOk};
ghost use Rattle.net_base.specs.plan.Accepted.{IsChecked};
ghost use Rattle.plan_names.specs.Planned.{names_of};
ghost use Rattle.command_text.specs.{Events.{command_in}, Planned.{IsPlanned}};
ghost use Rattle.scenario_text.specs.WordReading.{ReadsWords};

use crate::word_fault::WordFault;
use command_text::{Command, ScenarioFault, read_one};
use net_base::{NoMemory, Plan};
use plan_names::{NameLists, PlanNames};
use std::alloc::Global;

/// The command that words are, parted by one space each, which names rows of a plan by these names. `Bad` comes exactly at the first
/// word that is missing, one too many, or not what has to stand there.
///
/// The names are indexed once for any number of commands, so that a script is read in a time that grows with its length alone.
pub fn read_command_with(
    alloc: Global,
    plan: &Plan,
    names: &PlanNames<'_>,
    words: &str,
) -> Result<Command, WordFault>
    requires names { names.now ≡ names_of plan.now }
    ensures exact { ReadsWords result (command_in plan.now 1 0 words.now) }
    ensures planned { IfOk result (IsPlanned plan.now) }
{
    match read_one(alloc, plan, names, words) {
        Ok(command) => Ok(command),
        Err(ScenarioFault::BadWord { word, .. }) => Err(WordFault::Bad(word)),
        Err(_) => Err(WordFault::NoMemory),
    }
}

/// The command that words are, parted by one space each. `Bad` comes exactly at the first word that is missing, one too many, or not
/// what has to stand there.
pub fn read_command(alloc: Global, plan: &Plan, words: &str) -> Result<Command, WordFault>
    requires { IsChecked plan.now }
    ensures exact { ReadsWords result (command_in plan.now 1 0 words.now) }
    ensures planned { IfOk result (IsPlanned plan.now) }
{
    let Ok(lists) = NameLists::of(alloc, plan) else {
        return Err(WordFault::NoMemory);
    };
    match lists.indexed(alloc) {
        Ok(names) => {
            let command = read_command_with(alloc, plan, &names, words);
            drop(names);
            command
        }
        Err(NoMemory) => Err(WordFault::NoMemory),
    }
}
