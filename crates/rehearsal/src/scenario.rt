//! The scenario of a rehearsal.
ghost use Rattle.std.specs.Prelude.{◌≡◌, All, IfOk};
ghost use Rattle.net_base.specs.plan.Accepted.{IsChecked};
ghost use Rattle.command_text.specs.Planned.{IsPlanned};
ghost use Rattle.rehearsal.specs.Scenario.{rehearsal};

use crate::commands::commands;
use crate::plan::plan;
use net_base::NoMemory;
use scenario_text::Scenario;
use std::alloc::Global;

/// The scenario that a seed makes: the network of `specs/Rows.antt`, `connect` for each wire in the plan's order, `settle 10000`, and
/// 2,000 times a frame and `flow 1000`. Its plan passes `Plan::check`, and its commands speak of what is in the plan. The one error is
/// want of memory.
#[tactic(auto, using(crate::proofs::ScenarioLemmas::made_of, crate::proofs::ScenarioLemmas::checked_of, crate::proofs::ScenarioLemmas::planned_of))]
pub fn rehearsal(alloc: Global, seed: u64) -> Result<Scenario, NoMemory>
    ensures scenario { IfOk result (λ scenario. scenario ≡ rehearsal seed) }
    ensures checked { IfOk result (λ scenario. IsChecked scenario.plan) }
    ensures planned { IfOk result (λ scenario. All (IsPlanned scenario.plan) scenario.commands) }
{
    match plan(alloc) {
        Ok(plan) => match commands(alloc, plan.wires.as_slice(), seed) {
            Ok(commands) => Ok(Scenario { plan, commands }),
            Err(fault) => Err(fault),
        },
        Err(fault) => Err(fault),
    }
}
