//! A whole script.
ghost use Rattle.std.specs.{Prelude.{◌≡◌, ℕ, Some, true, slice_get, IfOk}, List.{All}};
ghost use Rattle.net_base.specs.{declared.plan.wire_plan.WirePlan.{WirePlan}, plan.Accepted.{IsChecked}};
ghost use Rattle.independent_model.specs.Wires.{is_between};
ghost use Rattle.switchover_model.specs.{Laws.{AgreesOn, HasSwitchTypes}, Network.{done_all, first_network}, Text.{script_entries}};
ghost use Rattle.switchover_model.specs.Planned.{IsLineOf};
ghost use Rattle.switchover_net.specs.Net.{ShowsSwitchState};

use crate::SwitchNet;
use net_base::{List, NoMemory, Plan};
use std::alloc::Global;
use switchover_model::{SwitchEntry, SwitchLine};

/// Does the lines of a script one after another, and answers what each of them has made of the network. The plan's numbers fit their
/// types, and each line names edges and a wire of the plan. After the lines, of each wire between two edges both ends agree: while the two
/// are connected, once an edge has heard what is on its way to it, it knows what the other one calls the wire, and where nothing is on its
/// way both use the wire exactly where both call it active, and none asks (RFC 6870 section 4).
#[tactic(auto, using(switchover_model::proofs::AgreeLemmas::scripts_agree))]
pub fn play(
    alloc: Global,
    plan: &Plan,
    lines: &[SwitchLine],
) -> Result<List<List<SwitchEntry>>, NoMemory>
    requires checked { IsChecked plan.now }
    requires types { HasSwitchTypes plan.now }
    requires known { All (IsLineOf plan.now) lines.now }
    ensures entries { IfOk result (λ told. told ≡ script_entries plan.now lines.now first_network) }
    ensures agrees { (a b wire : ℕ) (row : WirePlan) → slice_get plan.now.wires wire ≡ Some row → is_between plan.now wire a b ≡ true → AgreesOn plan.now (done_all plan.now lines.now first_network) a b wire row }
{
    let mut network = SwitchNet::open(alloc, plan)?;
    play_lines(alloc, &mut network, lines)
}

// The same from the network of the plan before its first line.
#[tactic(auto, using(crate::proofs::PlayLemmas::play_steps))]
fn play_lines(
    alloc: Global,
    network: &mut SwitchNet,
    lines: &[SwitchLine],
) -> Result<List<List<SwitchEntry>>, NoMemory>
    requires checked { IsChecked network.old.row.plan }
    requires known { All (IsLineOf network.old.row.plan) lines.now }
    requires first { ShowsSwitchState network.old first_network }
    ensures entries { IfOk result (λ told. told ≡ script_entries network.old.row.plan lines.now first_network) }
{
    let mut told = List::new(alloc);
    for place in 0..lines.len() {
        told.push(network.line(alloc, lines[place])?)?;
    }
    Ok(told)
}
