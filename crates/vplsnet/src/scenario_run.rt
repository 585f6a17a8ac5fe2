//! The run of a scenario: each command makes its events, and the network does them in turn.
ghost use Rattle.std.specs.Prelude.{◌≡◌, false, All, IfOk, OnOk};
ghost use Rattle.net_base.specs.{plan.Accepted.{IsChecked}, plan.Planned.{IsFrame}};
ghost use Rattle.command_text.specs.Planned.{IsPlanned};
ghost use Rattle.command_run.specs.Made.{made};
ghost use Rattle.flight_laws.specs.Ends.{HasTypes};
ghost use Rattle.psn_net.specs.{Lists.{network_seen}, Runs.{ended, ran}};
ghost use Rattle.vplsnet.specs.{RunOver.{outcome_by}, ScenarioRun.{HasRun}};

use crate::outcome::Outcome;
use crate::work::Work;
use command_run::{LeftCaptures, run_command};
use command_text::Command;
use net_base::{List, NoMemory, Octets};
use psn_net::{NetStop, Network};
use std::alloc::Global;

/// A command mostly tells no more entries than this: its event, and what becomes of it.
const ENTRIES: usize = 4;

/// A run that is over: the network as it left it, and the limit that stopped it, where one did.
#[derive(Drop)]
pub struct ScenarioRun {
    pub network: Network,
    pub stop: Option<NetStop>,
}

/// The run of a scenario with the captures that it plays, which are dropped as it does them. The one error is want of memory.
pub fn run_scenario(alloc: Global, work: Work) -> Result<ScenarioRun, NoMemory>
    requires checked { IsChecked work.scenario.plan }
    requires typed { HasTypes work.scenario.plan }
    requires planned { All (IsPlanned work.scenario.plan) work.scenario.commands }
    requires frames { All (All IsFrame) work.captures }
    ensures run { IfOk result (λ run. HasRun work.scenario work.captures run.network run.stop) }
{
    let entries = work.scenario.commands.len().saturating_mul(ENTRIES);
    let mut network = match Network::open_with_capacity(alloc, &work.scenario.plan, entries) {
        Ok(network) => network,
        Err(fault) => return Err(fault),
    };
    let Work { scenario, captures } = work;
    match run_commands(alloc, &mut network, captures, scenario.commands) {
        Ok(stop) => Ok(ScenarioRun { network, stop }),
        Err(fault) => Err(fault),
    }
}

// Does commands in turn, with the captures that they play, and answers the limit that stopped one, where one did.
#[tactic(auto, using(command_run::proofs::MadeLemmas::planned_first))]
fn run_commands(
    alloc: Global,
    network: &mut Network,
    captures: List<List<Octets>>,
    commands: List<Command>,
) -> Result<Option<NetStop>, NoMemory>
    requires going { network.old.failed ≡ false }
    requires planned { All (IsPlanned network.old.plan) commands }
    requires frames { All (All IsFrame) captures }
    ensures plan { OnOk result (network.new.plan ≡ network.old.plan) }
    ensures going { OnOk result (network.new.failed ≡ false) }
    ensures ends { IfOk result (λ stop. ended network.new stop ≡ ran network.old.plan (network_seen network.old) network.old.trace (made network.old.plan (network_seen network.old) captures commands)) }
{
    let mut captures = LeftCaptures::of(captures);
    for command in commands.into_items() {
        match run_command(alloc, network, &mut captures, command) {
            Ok(()) => {}
            Err(NetStop::NoMemory) => return Err(NoMemory),
            Err(stop) => return Ok(Some(stop)),
        }
    }
    Ok(None)
}

/// The outcome of a run that this limit stopped, or none.
pub fn outcome_of(stop: Option<NetStop>) -> Outcome
    ensures { result ≡ outcome_by stop }
{
    match stop {
        None => Outcome::Done,
        Some(stop) => Outcome::Stopped(stop),
    }
}
