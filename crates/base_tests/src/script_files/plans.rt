//! Plans of three edges.
ghost use Rattle.std.specs.Prelude.{◌≡◌, ◌<◌, length};
ghost use Rattle.net_base.specs.plan.Accepted.{IsChecked};

use crate::words::holds;
use ldp_discovery::Adjacencies;
use net_base::{EdgeId, Plan};
use scenario_text::read_scenario;
use std::alloc::Global;
use std::process::Abort;

pub const A: EdgeId = EdgeId(0);

pub const B: EdgeId = EdgeId(1);

pub const C: EdgeId = EdgeId(2);

const THREE_EDGES: &str = r#"
version = 1
edge = [{ name = "a", address = "10.0.0.1" }, { name = "b", address = "10.0.0.2" }, { name = "c", address = "10.0.0.3" }]
service = [{ name = "s" }]
wire = [
  { name = "w", service = "s", class = "mesh", path = ["a", "b"], pw_id = 100 },
  { name = "v", service = "s", class = "mesh", path = ["b", "c"], pw_id = 200 },
]
"#;

// The plan of a scenario.
fn plan_of(rt: &impl Abort, alloc: Global, text: &str) -> Plan
    ensures { IsChecked result }
{
    read_scenario(alloc, text.as_bytes())
        .ok()
        .expect(rt, "a scenario")
        .plan
}

/// Three edges, of which the second one has a wire with each of the others.
pub fn three_edges(rt: &impl Abort, alloc: Global) -> Plan
    ensures checked { IsChecked result }
    ensures count { length result.edges ≡ 3 }
{
    let plan = plan_of(rt, alloc, THREE_EDGES);
    holds(rt, plan.edges.len() == 3, "three edges");
    plan
}

// The adjacencies of an edge of a plan.
fn opened(rt: &impl Abort, alloc: Global, plan: &Plan, me: EdgeId) -> Adjacencies
    requires checked { IsChecked plan.now }
    requires me { me.0 < length plan.now.edges }
{
    Adjacencies::open(alloc, plan, me).ok().expect(rt, "memory")
}

/// The adjacencies of one of them.
pub fn adjacencies(rt: &impl Abort, alloc: Global, me: EdgeId) -> Adjacencies {
    holds(rt, me.0 < 3, "one of three edges");
    let plan = three_edges(rt, alloc);
    opened(rt, alloc, &plan, me)
}

// Of two wires one has three edges.
const LONG_WIRE: &str = r#"
version = 1
edge = [{ name = "a", address = "10.0.0.1" }, { name = "b", address = "10.0.0.2" }, { name = "c", address = "10.0.0.3" }]
service = [{ name = "s" }]
wire = [
  { name = "w", service = "s", class = "mesh", path = ["a", "b"], pw_id = 100 },
  { name = "u", service = "s", class = "mesh", path = ["a", "b", "c"], pw_id = 200 },
]
"#;

/// Three edges, with a wire between the first two, and one that passes all of them.
pub fn long_wire(rt: &impl Abort, alloc: Global) -> Plan
    ensures { IsChecked result }
{
    plan_of(rt, alloc, LONG_WIRE)
}
