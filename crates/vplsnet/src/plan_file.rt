//! A scenario's file, and a second file that is read behind it.
ghost use Rattle.std.specs.Prelude.{◌<◌, ◌^◌, IfErr, IfOk};
ghost use Rattle.net_base.specs.plan.Accepted.{IsChecked};
ghost use Rattle.flight_laws.specs.Ends.{HasTypes};
ghost use Rattle.vplsnet.specs.{Around.{gained}, PlanFile.{HasBoth, IsReadOfTwo, LacksOne}, Reads.{GainsReads}};

use crate::named_file::octets_of;
use crate::outcome::Outcome;
use crate::scenario_file::file_scenario;
use net_base::{Octets, Shelf};
use scenario_text::Scenario;
use std::alloc::Global;

/// What both files hold. What the scenario plays is not read.
#[derive(Drop)]
pub struct PlanFile {
    pub scenario: Scenario,
    /// The octets of the second file.
    pub octets: Octets,
}

/// The scenario of a file, and the octets of a second file, of at most so many octets; or the outcome of what is refused first: the second
/// file is read where the scenario is accepted.
#[tactic(auto, using(crate::proofs::PlanFileLemmas::two_file_steps))]
pub fn plan_and_file<F: Shelf>(
    alloc: Global,
    shelf: &mut F,
    file: &str,
    second: &str,
    limit: usize,
) -> Result<PlanFile, Outcome>
    requires { limit < 2 ^ 62 }
    ensures has { IfOk result (λ both. HasBoth (gained (F.reads shelf.old) (F.reads shelf.new)) file.now (record { name = second.now; limit = limit }) both.scenario both.octets) }
    ensures checked { IfOk result (λ both. IsChecked both.scenario.plan) }
    ensures typed { IfOk result (λ both. HasTypes both.scenario.plan) }
    ensures lacks { IfErr result (LacksOne (gained (F.reads shelf.old) (F.reads shelf.new)) (F.faults shelf.old) (F.faults shelf.new) file.now (record { name = second.now; limit = limit })) }
    ensures reads { GainsReads (IsReadOfTwo (gained (F.reads shelf.old) (F.reads shelf.new)) file.now (record { name = second.now; limit = limit })) (F.reads shelf.old) (F.reads shelf.new) }
{
    let scenario = match file_scenario(alloc, shelf, file) {
        Ok(scenario) => scenario,
        Err(outcome) => return Err(outcome),
    };
    match octets_of(alloc, shelf, second, limit) {
        Ok(octets) => Ok(PlanFile { scenario, octets }),
        Err(outcome) => Err(outcome),
    }
}
