//! What the plan says of a service.
ghost use Rattle.std.specs.Prelude.{◌≡◌, ◌<◌, false, [], length, IfOk};
ghost use Rattle.net_base.specs.plan.{Places.{wire_row}, Roles.{is_spoke_edge, is_spoke_from}};
ghost use Rattle.edge_model.specs.Spokes.{is_spoke_row, spoke_places};
ghost use Rattle.survey_reach.specs.{Reach.{IsShapeOf, spokes_at}, Rows.{IsFilled}};

use edge_model::EndPlace;
use net_base::{Class, EdgeId, List, NoMemory, Plan, ServiceId, WirePlan, first_of};
use provider_edge::Edge;
use psn_net::Network;
use std::alloc::Global;
use survey_reach::Shape;

// Whether a wire is a spoke of the service from the edge.
fn is_spoke_from(service: ServiceId, edge: usize, row: &WirePlan) -> bool
    ensures { result ≡ is_spoke_from service edge row.now }
{
    if row.service.0 != service.0 || row.class != Class::Spoke {
        return false;
    }
    match first_of(row.path.as_slice()) {
        Some(first) => edge == first.0 as usize,
        None => false,
    }
}

// Whether an end is that of such a spoke.
fn is_spoke(plan: &Plan, service: ServiceId, edge: EdgeId, place: EndPlace) -> bool
    ensures { result ≡ is_spoke_row service edge (wire_row plan.now place.wire) }
{
    match plan.wires.get(place.wire.0 as usize) {
        Some(row) => is_spoke_from(service, edge.0 as usize, row),
        None => false,
    }
}

// The ends of the spokes of a service that start at an edge.
fn spokes_from(alloc: Global, edge: &Edge, service: ServiceId) -> Result<List<EndPlace>, NoMemory>
    ensures { IfOk result (λ list. list ≡ spoke_places edge.now.plan edge.now.me service) }
{
    let mut list = List::new(alloc);
    for place in edge.places() {
        if is_spoke(edge.plan(), service, edge.me(), *place) {
            list.push(*place)?;
        }
    }
    Ok(list)
}

// Whether an edge starts a spoke of the service.
fn starts_spoke(plan: &Plan, service: ServiceId, edge: usize) -> bool
    ensures { result ≡ is_spoke_edge plan.now service edge }
{
    plan.wires
        .as_slice()
        .iter()
        .any(|row| is_spoke_from(service, edge, row))
}

// Of each edge, whether it starts one.
#[tactic(auto, using(survey_reach::proofs::RowLemmas::filled_none, survey_reach::proofs::RowLemmas::filled_more))]
fn all_starts(alloc: Global, network: &Network, service: ServiceId) -> Result<List<bool>, NoMemory>
    ensures { IfOk result (λ starts. IsFilled (is_spoke_edge network.now.plan service) false (length network.now.plan.edges) starts) }
{
    let mut starts = List::new(alloc);
    for edge in 0..network.count() {
        starts.push(starts_spoke(network.plan(), service, edge))?;
    }
    Ok(starts)
}

// The ends of those that start at an edge of the network.
fn spokes_at(
    alloc: Global,
    network: &Network,
    service: ServiceId,
    edge: usize,
) -> Result<List<EndPlace>, NoMemory>
    requires { edge < length network.now.plan.edges }
    ensures { IfOk result (λ list. list ≡ spokes_at network.now.plan service edge) }
{
    // Asked so that how many edges there are at most is at hand for the proof.
    let _count = network.count();
    match network.edge(EdgeId(edge as u16)) {
        Some(edge) => spokes_from(alloc, edge, service),
        None => Ok(List::new(alloc)),
    }
}

// Of each edge, the ends of those that start at it.
#[tactic(auto, using(survey_reach::proofs::RowLemmas::filled_none, survey_reach::proofs::RowLemmas::filled_more))]
fn all_spokes(
    alloc: Global,
    network: &Network,
    service: ServiceId,
) -> Result<List<List<EndPlace>>, NoMemory>
    ensures { IfOk result (λ spokes. IsFilled (spokes_at network.now.plan service) [] (length network.now.plan.edges) spokes) }
{
    let mut spokes = List::new(alloc);
    for edge in 0..network.count() {
        let list = spokes_at(alloc, network, service, edge)?;
        spokes.push(list)?;
    }
    Ok(spokes)
}

/// What the plan of a network says of a service.
pub fn shape_of(alloc: Global, network: &Network, service: ServiceId) -> Result<Shape, NoMemory>
    ensures { IfOk result (λ shape. IsShapeOf network.now.plan service shape) }
{
    let starts = all_starts(alloc, network, service)?;
    let spokes = all_spokes(alloc, network, service)?;
    Ok(Shape {
        service,
        starts,
        spokes,
    })
}
