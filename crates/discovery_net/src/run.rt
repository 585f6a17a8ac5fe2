//! The run of a script.
ghost use Rattle.std.specs.Prelude.{◌≡◌, All, List, IfOk, [], false};
ghost use Rattle.net_base.specs.plan.Accepted.{IsChecked};
ghost use Rattle.network_model.specs.State.{empty_network};
ghost use Rattle.psn_net.specs.Runs.{ended, ran};
ghost use Rattle.discovery_script.specs.Planned.{IsDiscoveryLineOf};
ghost use Rattle.discovery_net.specs.{Lists.{ended_at}, Script.{HoldsBehindEach, IsUnderWay, events_made, script_course}};

use crate::discovery_net::DiscoveryNet;
use discovery_script::ScriptLine;
use net_base::{List, NoMemory, Plan};
use psn_net::NetStop;
use std::alloc::Global;

/// A script that is over: the network as it left it, and the limit that stopped it, where one did.
#[derive(Drop)]
pub struct DiscoveryRun {
    pub net: DiscoveryNet,
    pub stop: Option<NetStop>,
}

/// Does the lines of a script one after another, from the network of the plan before its first event on; they name places of the plan. A
/// limit of the network ends the run before the event that it stops. The one error is want of memory.
pub fn run_script(
    alloc: Global,
    plan: &Plan,
    lines: List<ScriptLine>,
) -> Result<DiscoveryRun, NoMemory>
    requires checked { IsChecked plan.now }
    requires lines { All (IsDiscoveryLineOf plan.now) lines }
    ensures plan { IfOk result (λ run. run.net.network.plan ≡ plan.now) }
    ensures going { IfOk result (λ run. run.net.network.failed ≡ false) }
    ensures course { IfOk result (λ run. ended_at run.net run.stop ≡ script_course plan.now lines) }
    ensures events { IfOk result (λ run. ended run.net.network run.stop ≡ ran plan.now (empty_network plan.now) [] (events_made plan.now lines)) }
    ensures standing { HoldsBehindEach plan.now lines }
{
    let mut net = match DiscoveryNet::open(alloc, plan) {
        Ok(net) => net,
        Err(fault) => {
            drop(lines);
            return Err(fault);
        }
    };
    match apply_lines(&mut net, alloc, lines) {
        Ok(stop) => Ok(DiscoveryRun { net, stop }),
        Err(fault) => Err(fault),
    }
}

// Does lines one after another, and answers the limit that stopped one of them, where one did.
#[tactic(auto, using(crate::proofs::ScriptLemmas::line_first))]
fn apply_lines(
    net: &mut DiscoveryNet,
    alloc: Global,
    lines: List<ScriptLine>,
) -> Result<Option<NetStop>, NoMemory>
    requires going { net.old.network.failed ≡ false }
    requires lines { All (IsDiscoveryLineOf net.old.network.plan) lines }
    ensures plan { net.new.network.plan ≡ net.old.network.plan }
    ensures going { IfOk result (λ stop. net.new.network.failed ≡ false) }
    ensures course { (all : List ScriptLine) → IsUnderWay net.old.network.plan all lines net.old → IfOk result (λ stop. ended_at net.new stop ≡ script_course net.old.network.plan all) }
{
    for line in lines.into_items() {
        match net.apply_line(alloc, line) {
            Ok(()) => {}
            Err(NetStop::NoMemory) => return Err(NoMemory),
            Err(stop) => return Ok(Some(stop)),
        }
    }
    Ok(None)
}
