//! The faults of a network.
ghost use Rattle.std.specs.Prelude.{◌≡◌, ◌<◌, ◌≤◌, ◌++◌, [], None, OnOk, IfOk, length};
ghost use Rattle.net_base.specs.plan.Accepted.{IsChecked};
ghost use Rattle.network_model.specs.State.{NetworkState};
ghost use Rattle.survey_laws.specs.Faults.{where_so, with_fault};
ghost use Rattle.survey_reach.specs.{Ground.{IsGroundOf, number_of, sound_at}, Words.{has_pair}};
ghost use Rattle.survey_reach.specs.FaultList.{all_faults, edges_from, has_peer, priorities_from, sessions_from, wires_from};

use crate::rivals::priority_fault;
use crate::{EdgePairs, Ground};
use net_base::{EdgeId, EdgePlan, List, NoMemory, Plan, WireId};
use std::alloc::Global;
use survey_laws::Fault;

// A fault, where it may befall.
fn where_so(so: bool, fault: Fault) -> Option<Fault>
    ensures { result ≡ where_so so fault }
{
    if so { Some(fault) } else { None }
}

// Adds a fault, where there is one.
#[tactic(auto, using(crate::proofs::FaultLemmas::none_added))]
fn push_some(list: &mut List<Fault>, fault: Option<Fault>) -> Result<(), NoMemory>
    ensures { OnOk result (list.new ≡ list.old ++ with_fault fault []) }
{
    match fault {
        Some(fault) => list.push(fault),
        None => Ok(()),
    }
}

// Adds the connections of each edge with later ones.
fn add_sessions(
    list: &mut List<Fault>,
    connected: &EdgePairs,
    edges: &[EdgePlan],
) -> Result<(), NoMemory>
    requires { length edges.now ≤ 64 }
    ensures { OnOk result (list.new ≡ list.old ++ sessions_from (has_pair connected.now) 0 edges.now) }
{
    for a in 0..edges.len() {
        for b in a + 1..edges.len() {
            let fault = Fault::Session {
                one: EdgeId(a as u16),
                other: EdgeId(b as u16),
            };
            push_some(list, where_so(connected.has(a, b), fault))?;
        }
    }
    Ok(())
}

// Adds each wire that is sound.
#[tactic(auto, using(crate::proofs::FaultLemmas::wire_steps, crate::proofs::GroundLemmas::sound_steps))]
fn add_wires(list: &mut List<Fault>, plan: &Plan, ground: &Ground) -> Result<(), NoMemory>
    ghost before: { NetworkState }
    requires checked { IsChecked plan.now }
    requires ground { IsGroundOf plan.now before ground.now }
    ensures { OnOk result (list.new ≡ list.old ++ wires_from (sound_at plan.now before) 0 plan.now.wires) }
{
    for wire in 0..plan.wires.len() {
        let fault = Fault::Wire {
            wire: WireId(wire as u16),
        };
        push_some(list, where_so(ground.sound[wire], fault))?;
    }
    Ok(())
}

// Whether an edge is connected with some edge.
#[tactic(auto, using(crate::proofs::FaultLemmas::peer_steps))]
fn has_peer(connected: &EdgePairs, edges: &[EdgePlan], edge: usize) -> bool
    requires count { length edges.now ≤ 64 }
    requires edge { edge < 64 }
    ensures { result ≡ has_peer (has_pair connected.now) edge 0 edges.now }
{
    for other in 0..edges.len() {
        if connected.has(edge, other) {
            return true;
        }
    }
    false
}

// Adds each edge that is connected with one.
#[tactic(auto, using(crate::proofs::FaultLemmas::edge_steps))]
fn add_edges(
    list: &mut List<Fault>,
    connected: &EdgePairs,
    edges: &[EdgePlan],
) -> Result<(), NoMemory>
    requires { length edges.now ≤ 64 }
    ensures { OnOk result (list.new ≡ list.old ++ edges_from (has_pair connected.now) edges.now 0 edges.now) }
{
    for edge in 0..edges.len() {
        let fault = Fault::Edge {
            edge: EdgeId(edge as u16),
        };
        push_some(list, where_so(has_peer(connected, edges, edge), fault))?;
    }
    Ok(())
}

// Adds the other number of each spoke that has one.
#[tactic(auto, using(crate::proofs::FaultLemmas::priority_steps))]
fn add_priorities(list: &mut List<Fault>, plan: &Plan, ground: &Ground) -> Result<(), NoMemory>
    ghost before: { NetworkState }
    requires checked { IsChecked plan.now }
    requires ground { IsGroundOf plan.now before ground.now }
    ensures { OnOk result (list.new ≡ list.old ++ priorities_from plan.now (number_of plan.now before) 0 plan.now.wires) }
{
    let wires = plan.wires.as_slice();
    for wire in 0..wires.len() {
        push_some(list, priority_fault(plan, ground, wire, &wires[wire]))?;
    }
    Ok(())
}

/// The faults of a network: of connections, of wires, of edges and of numbers, each in the plan's order.
#[tactic(auto, using(crate::proofs::FaultLemmas::all_are))]
pub fn all_faults(alloc: Global, plan: &Plan, ground: &Ground) -> Result<List<Fault>, NoMemory>
    ghost before: { NetworkState }
    requires checked { IsChecked plan.now }
    requires ground { IsGroundOf plan.now before ground.now }
    ensures { IfOk result (λ list. list ≡ all_faults plan.now before) }
{
    let mut list = List::new(alloc);
    add_sessions(&mut list, &ground.connected, plan.edges.as_slice())?;
    add_wires(&mut list, plan, ground)?;
    add_edges(&mut list, &ground.connected, plan.edges.as_slice())?;
    add_priorities(&mut list, plan, ground)?;
    Ok(list)
}
