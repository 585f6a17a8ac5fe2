//! What edges are to services.
ghost use Rattle.std.specs.{Prelude.{◌≡◌, ◌↔◌, ◌||◌, false, None}, List.{list_any}};
ghost use Rattle.net_base.specs.plan.Roles.{has_port, is_circuit_at, is_spoke_edge, wire_ends_at};
ghost use Rattle.hvpls_spokes.specs.Role.{role_of};

use crate::Role;
use crate::terminal::{ends_at, starts_spoke};
use net_base::{CircuitPlan, EdgeId, Plan, ServiceId, WirePlan};

/// What an edge is to a service by the plan: `SpokeEdge` exactly where it starts a spoke of the service, and `Core` exactly where it
/// has a port of the service, which is an attachment circuit or an end of a wire, and starts no spoke of it. `None` exactly where it
/// has no port (RFC 4762 section 10.1). It takes no memory.
#[tactic(auto, using(crate::proofs::RoleLemmas::spoke_edge_has_port))]
pub fn role(plan: &Plan, service: ServiceId, edge: EdgeId) -> Option<Role>
    ensures role { result ≡ role_of plan.now service edge }
    ensures none { result ≡ None ↔ has_port plan.now service edge.0 ≡ false }
{
    if is_spoke_edge(plan, service, edge) {
        Some(Role::SpokeEdge)
    } else if has_port(plan, service, edge) {
        Some(Role::Core)
    } else {
        None
    }
}

// Whether the edge starts a spoke of the service.
fn is_spoke_edge(plan: &Plan, service: ServiceId, edge: EdgeId) -> bool
    ensures { result ≡ is_spoke_edge plan.now service edge.0 }
{
    let wires = plan.wires.as_slice();
    wires.iter().any(|wire| starts_spoke(wire, service, edge))
}

// Whether the edge has a circuit of the service, or an end of one of its wires.
fn has_port(plan: &Plan, service: ServiceId, edge: EdgeId) -> bool
    ensures { result ≡ has_port plan.now service edge.0 }
{
    has_circuit(plan.circuits.as_slice(), service, edge)
        || has_end(plan.wires.as_slice(), service, edge)
}

// A test by a closure proves by itself alone.
fn has_circuit(circuits: &[CircuitPlan], service: ServiceId, edge: EdgeId) -> bool
    ensures { result ≡ list_any (is_circuit_at service edge.0) circuits.now }
{
    circuits.iter().any(|circuit| circuit.service == service && circuit.edge == edge)
}

// So does this one.
fn has_end(wires: &[WirePlan], service: ServiceId, edge: EdgeId) -> bool
    ensures { result ≡ list_any (wire_ends_at service edge.0) wires.now }
{
    wires.iter().any(|wire| ends_at(wire, service, edge))
}
