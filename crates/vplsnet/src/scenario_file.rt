//! The scenario of a file, with the captures that it plays.
ghost use Rattle.std.specs.Prelude.{◌≡◌, All, IfErr, IfOk, Ok};
ghost use Rattle.net_base.specs.{outside.Outside.{NeverFall}, plan.Accepted.{IsChecked}, plan.Planned.{IsFrame}};
ghost use Rattle.command_text.specs.Planned.{IsPlanned};
ghost use Rattle.flight_laws.specs.Ends.{HasTypes};
ghost use Rattle.vplsnet.specs.{Answers.{IsRefused}, Around.{Has, gained}, Asked.{run_asked_by}, Inputs.{ComesTo, Run, Works, scenario_limit}};
ghost use Rattle.vplsnet.specs.Reads.{GainsReads, IsCaptureRead, IsReadOf, IsReadOfNext};
ghost use Rattle.vplsnet.specs.ScenarioFile.{HasAll, HasNoScenario, IsOfFile, LacksSome, ReadsScenario, outcome_of_fault};

use crate::capture::missing_circuit;
use crate::captures::captures_of;
use crate::named_file::octets_of;
use crate::outcome::Outcome;
use crate::run_request::RunRequest;
use crate::work::Work;
use net_base::{List, Octets, Shelf, Word};
use scenario_text::{Scenario, ScenarioFault, read_scenario};
use std::alloc::Global;

/// The most octets of a scenario.
const SCENARIO_LIMIT: usize = 8_388_608;

/// The scenario of a file; or the outcome of what is refused first: the file is read, and its octets are a scenario.
#[tactic(auto, using(crate::proofs::ScenarioFileLemmas::one_file_steps, crate::proofs::ScenarioFileLemmas::no_scenario_by))]
pub fn file_scenario<F: Shelf>(
    alloc: Global,
    shelf: &mut F,
    file: &str,
) -> Result<Scenario, Outcome>
    ensures has { IfOk result (IsOfFile (gained (F.reads shelf.old) (F.reads shelf.new)) file.now) }
    ensures checked { IfOk result (λ scenario. IsChecked scenario.plan) }
    ensures typed { IfOk result (λ scenario. HasTypes scenario.plan) }
    ensures planned { IfOk result (λ scenario. All (IsPlanned scenario.plan) scenario.commands) }
    ensures none { IfErr result (HasNoScenario (gained (F.reads shelf.old) (F.reads shelf.new)) (F.faults shelf.old) (F.faults shelf.new) file.now) }
    ensures reads { GainsReads (IsReadOf (record { name = file.now; limit = scenario_limit })) (F.reads shelf.old) (F.reads shelf.new) }
    ensures never_fall { NeverFall (F.faults shelf.old) (F.faults shelf.new) }
{
    let octets = match octets_of(alloc, shelf, file, SCENARIO_LIMIT) {
        Ok(octets) => octets,
        Err(outcome) => return Err(outcome),
    };
    match read_scenario(alloc, octets.as_slice()) {
        Ok(scenario) => Ok(scenario),
        Err(fault) => Err(refused(fault)),
    }
}

/// The scenario of the file of a request, with the captures that it plays; or the outcome of what is refused first, in this order: the
/// file is read, its octets are a scenario, the circuit that the request names is there, and the captures are read one after
/// another.
#[tactic(auto, using(crate::proofs::ScenarioFileLemmas::file_steps, crate::proofs::ReadLemmas::file_reads))]
pub fn scenario_of<F: Shelf>(
    alloc: Global,
    shelf: &mut F,
    request: RunRequest<'_>,
    file: &str,
) -> Result<Work, Outcome>
    requires { ReadsScenario (run_asked_by request) file.now }
    ensures come { IfOk result (λ work. ComesTo (Has (gained (F.reads shelf.old) (F.reads shelf.new))) (run_asked_by request.entry) (Works (Run work.scenario work.captures))) }
    ensures checked { IfOk result (λ work. IsChecked work.scenario.plan) }
    ensures typed { IfOk result (λ work. HasTypes work.scenario.plan) }
    ensures planned { IfOk result (λ work. All (IsPlanned work.scenario.plan) work.scenario.commands) }
    ensures frames { IfOk result (λ work. All (All IsFrame) work.captures) }
    ensures refused { IfErr result (IsRefused (gained (F.reads shelf.old) (F.reads shelf.new)) (F.faults shelf.old) (F.faults shelf.new) (run_asked_by request.entry)) }
    ensures reads { GainsReads (IsReadOfNext (Has (gained (F.reads shelf.old) (F.reads shelf.new))) (run_asked_by request.entry)) (F.reads shelf.old) (F.reads shelf.new) }
{
    match file_scenario(alloc, shelf, file) {
        Ok(scenario) => match captures_behind(alloc, shelf, request, &scenario) {
            Ok(captures) => Ok(Work { scenario, captures }),
            Err(outcome) => Err(outcome),
        },
        Err(outcome) => Err(outcome),
    }
}

// The outcome of a scenario with this fault, which is told as it is; want of memory is no fault of the scenario. Apart, since only so does
// a clause keep a fault from being told as want of memory.
fn refused(fault: ScenarioFault) -> Outcome
    ensures { result ≡ outcome_of_fault fault }
{
    match fault {
        ScenarioFault::NoMemory => Outcome::NoMemory,
        fault => Outcome::ScenarioRefused(fault),
    }
}

// The captures that a scenario plays, where it has the circuit that the request names, if it names one. Apart, since the lemmas of
// `scenario_of` rest on its clauses.
#[tactic(auto, using(crate::proofs::ScenarioFileLemmas::lack_steps, crate::proofs::ReadLemmas::capture_steps))]
fn captures_behind<F: Shelf>(
    alloc: Global,
    shelf: &mut F,
    request: RunRequest<'_>,
    scenario: &Scenario,
) -> Result<List<List<Octets>>, Outcome>
    ensures all { IfOk result (HasAll (gained (F.reads shelf.old) (F.reads shelf.new)) (run_asked_by request.entry) scenario.now) }
    ensures frames { IfOk result (All (All IsFrame)) }
    ensures lacks { IfErr result (LacksSome (gained (F.reads shelf.old) (F.reads shelf.new)) (F.faults shelf.old) (F.faults shelf.new) (run_asked_by request.entry) scenario.now) }
    ensures reads { GainsReads (IsCaptureRead (gained (F.reads shelf.old) (F.reads shelf.new)) (run_asked_by request.entry) scenario.now) (F.reads shelf.old) (F.reads shelf.new) }
{
    match missing_circuit(request, &scenario.plan) {
        Some(circuit) => match Word::new(alloc, circuit) {
            Ok(circuit) => Err(Outcome::NoCircuit(circuit)),
            Err(_) => Err(Outcome::NoMemory),
        },
        None => captures_of(alloc, shelf, scenario.commands.as_slice()),
    }
}
