//! The edges of a network before its first event.
ghost use Rattle.std.specs.Prelude.{◌≡◌, ◌<◌, [], length, IfOk, OnOk};
ghost use Rattle.net_base.specs.plan.Accepted.{IsChecked};
ghost use Rattle.psn_net.specs.Lists.{AreOpen};

use net_base::{EdgeId, NoMemory, Plan};
use provider_edge::Edge;
use std::alloc::Global;
use std::rc::Rc;

// An edge for each edge of the plan, all over the one plan.
pub(crate) fn open_edges(
    alloc: Global,
    plan: &Rc<Plan>,
    count: usize,
) -> Result<Vec<Edge>, NoMemory>
    requires checked { IsChecked plan.now.value }
    requires count { count ≡ length plan.now.value.edges }
    ensures { IfOk result (λ edges. AreOpen plan.now.value count edges.items) }
{
    let mut edges = Vec::new(alloc);
    match add_edges(alloc, plan, count, &mut edges) {
        Ok(()) => Ok(edges),
        Err(fault) => Err(fault),
    }
}

// Adds them to no edge.
#[tactic(auto, using(crate::proofs::NetworkLemmas::open_none, crate::proofs::NetworkLemmas::open_more))]
fn add_edges(
    alloc: Global,
    plan: &Rc<Plan>,
    count: usize,
    edges: &mut Vec<Edge>,
) -> Result<(), NoMemory>
    requires checked { IsChecked plan.now.value }
    requires count { count ≡ length plan.now.value.edges }
    requires none { edges.old.items ≡ [] }
    ensures { OnOk result (AreOpen plan.now.value count edges.new.items) }
{
    for place in 0..count {
        edges.push(Edge::share(alloc, plan.clone()?, EdgeId(place as u16))?)?;
    }
    Ok(())
}
