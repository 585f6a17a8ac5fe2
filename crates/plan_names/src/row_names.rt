//! The names of a plan's rows in order.
ghost use Rattle.std.specs.Prelude.{◌≡◌, IfOk};
ghost use Rattle.net_base.specs.plan.NameFaults.{edge_names, service_names, circuit_names, wire_names};

use net_base::{CircuitPlan, EdgePlan, Name, ServicePlan, WirePlan};
use std::alloc::{AllocError, Global};

/// The names of edges in order.
pub fn names_of_edges(alloc: Global, edges: &[EdgePlan]) -> Result<Vec<Name>, AllocError>
    ensures { IfOk result (λ names. names.items ≡ edge_names edges.now) }
{
    edges.iter().map(|edge| edge.name).collect(alloc)
}

/// The names of services in order.
pub fn names_of_services(alloc: Global, services: &[ServicePlan]) -> Result<Vec<Name>, AllocError>
    ensures { IfOk result (λ names. names.items ≡ service_names services.now) }
{
    services.iter().map(|service| service.name).collect(alloc)
}

/// The names of circuits in order.
pub fn names_of_circuits(alloc: Global, circuits: &[CircuitPlan]) -> Result<Vec<Name>, AllocError>
    ensures { IfOk result (λ names. names.items ≡ circuit_names circuits.now) }
{
    circuits.iter().map(|circuit| circuit.name).collect(alloc)
}

/// The names of wires in order.
pub fn names_of_wires(alloc: Global, wires: &[WirePlan]) -> Result<Vec<Name>, AllocError>
    ensures { IfOk result (λ names. names.items ≡ wire_names wires.now) }
{
    wires.iter().map(|wire| wire.name).collect(alloc)
}
