//! An edge is opened.
ghost use Rattle.std.specs.Prelude.{◌≡◌, ◌<◌, None, true, false, length, map, replicate, IfOk};
ghost use Rattle.net_base.specs.plan.Accepted.{IsChecked};
ghost use Rattle.edge_forwarding.specs.Forwarding.{IsNewForwarding};
ghost use Rattle.provider_edge.specs.{Opening.{AreNewEnds, IsNewEdge}, Spokes.{IsNewSpokes}};

use crate::Edge;
use crate::pings::first_pings;
use crate::sessions::Sessions;
use crate::spokes::{Spokes, priorities};
use edge_forwarding::Forwarding;
use net_base::{EdgeId, NoMemory, Plan};
use pw_ends::PwEnds;
use std::alloc::Global;
use std::rc::Rc;

impl Edge {
    // The edge over these ends, which have taken no input. Each part goes by value to the function that makes the
    // next one, so that no function has several parts to drop where memory is refused.
    pub(crate) fn with_ends(
        alloc: Global,
        plan: Rc<Plan>,
        me: EdgeId,
        ends: PwEnds,
    ) -> Result<Edge, NoMemory>
        requires checked { IsChecked plan.value }
        requires me { me.0 < length plan.value.edges }
        requires untold { AreNewEnds plan.value me ends }
        ensures { IfOk result (λ edge. IsNewEdge plan.value me edge) }
    {
        match Spokes::open(alloc, &plan, me, ends.places()) {
            Ok(spokes) => Edge::with_spokes(alloc, plan, me, ends, spokes),
            Err(fault) => Err(fault),
        }
    }

    // The edge over these ends and spokes, which have taken no input.
    fn with_spokes(
        alloc: Global,
        plan: Rc<Plan>,
        me: EdgeId,
        ends: PwEnds,
        spokes: Spokes,
    ) -> Result<Edge, NoMemory>
        requires spokes { IsNewSpokes plan.value me spokes }
        requires checked { IsChecked plan.value }
        requires me { me.0 < length plan.value.edges }
        requires untold { AreNewEnds plan.value me ends }
        ensures { IfOk result (λ edge. IsNewEdge plan.value me edge) }
    {
        match forwarding_over(alloc, &plan, me) {
            Ok(forwarding) => match first_lists(alloc, &plan) {
                Ok(lists) => Ok(Edge {
                    plan,
                    me,
                    peerings: lists.peerings,
                    ends,
                    wires_on: lists.wires_on,
                    bits: lists.bits,
                    priorities: lists.priorities,
                    pings: lists.pings,
                    spokes,
                    forwarding,
                    stopped: false,
                    marks: None,
                }),
                Err(fault) => Err(fault),
            },
            Err(fault) => Err(fault),
        }
    }
}

// What an edge forwards by, over a plan that others hold too.
fn forwarding_over(alloc: Global, plan: &Rc<Plan>, me: EdgeId) -> Result<Forwarding, NoMemory>
    requires checked { IsChecked plan.now.value }
    requires me { me.0 < length plan.now.value.edges }
    ensures { IfOk result (λ forwarding. IsNewForwarding plan.now.value me forwarding) }
{
    Forwarding::open(alloc, plan.clone()?, me)
}

// The lists of an edge before its first input.
#[derive(Drop)]
struct FirstLists {
    peerings: Sessions,
    wires_on: Vec<bool>,
    bits: Vec<u8>,
    priorities: Vec<u8>,
    pings: Vec<u16>,
}

// No session stands, every wire is on without a failure and was not pinged, and spokes have the priorities of the plan.
fn first_lists(alloc: Global, plan: &Plan) -> Result<FirstLists, NoMemory>
    ensures peerings { IfOk result (λ lists. lists.peerings ≡ replicate (length plan.now.edges) None) }
    ensures wires { IfOk result (λ lists. lists.wires_on.items ≡ replicate (length plan.now.wires) true) }
    ensures zeros { IfOk result (λ lists. lists.bits.items ≡ replicate (length plan.now.wires) 0) }
    ensures ones { IfOk result (λ lists. lists.pings.items ≡ replicate (length plan.now.wires) 1) }
    ensures priorities { IfOk result (λ lists. lists.priorities.items ≡ map (λ row. row.priority) plan.now.wires) }
{
    let count = plan.wires.len();
    let wires_on = vec![in alloc; true; count]?;
    let bits = vec![in alloc; 0u8; count]?;
    let pings = first_pings(alloc, count)?;
    let priorities = priorities(alloc, plan)?;
    let peerings = Sessions::open(alloc, plan.edges.len())?;
    Ok(FirstLists {
        peerings,
        wires_on,
        bits,
        priorities,
        pings,
    })
}
