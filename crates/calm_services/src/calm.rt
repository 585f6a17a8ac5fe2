//! Which services are calm.
ghost use Rattle.std.specs.Prelude.{◌≡◌, ◌<◌};
ghost use Rattle.net_base.specs.plan.Roles.{count_wires};
ghost use Rattle.calm_services.specs.{Calm.{has_spoke_where, has_spokes_where, is_calm_where, is_spoke_where}, EdgePairs.{AreEdgesOf}};

use crate::PlannedNetwork;
use crate::full::is_full_among;
use crate::quiet::is_quiet;
use crate::service_edges::ServiceEdges;
use hvpls_spokes::starts_spoke;
use net_base::{EdgeId, ServiceId, WireId};

/// Whether the service is quiet and full, and each of its spoke edges has exactly one spoke that carries frames (RFC 4762 section
/// 10.2). It takes no memory.
pub fn is_calm<N: PlannedNetwork>(network: &N, service: ServiceId) -> bool
    ensures { result ≡ is_calm_where (N.plan network.now) (N.settled network.now) (N.carries network.now) service }
{
    if !is_quiet(network, service) {
        return false;
    }
    let edges = ServiceEdges::of(network.plan(), service);
    is_full_among(network, service, &edges) && has_spokes(network, service, &edges)
}

// Each spoke edge of the service has exactly one spoke that carries frames.
#[tactic(auto, using(crate::proofs::CalmLemmas::below_more))]
fn has_spokes<N: PlannedNetwork>(network: &N, service: ServiceId, edges: &ServiceEdges) -> bool
    requires { AreEdgesOf (N.plan network.now) service edges.now }
    ensures { result ≡ has_spokes_where (N.plan network.now) (N.carries network.now) service }
{
    let count = network.plan().edges.len();
    for edge in 0..count {
        if !has_spoke(network, service, edges, EdgeId(edge as u16)) {
            return false;
        }
    }
    true
}

// The edge has exactly one spoke that carries frames, where it is a spoke edge of the service.
fn has_spoke<N: PlannedNetwork>(
    network: &N,
    service: ServiceId,
    edges: &ServiceEdges,
    edge: EdgeId,
) -> bool
    requires edges { AreEdgesOf (N.plan network.now) service edges.now }
    requires edge { edge.0 < 64 }
    ensures { result ≡ has_spoke_where (N.plan network.now) (N.carries network.now) service edge.0 }
{
    !edges.spokes.contains(edge.0) || live_spokes(network, service, edge) == 1
}

// How many spokes of the edge carry frames.
#[tactic(auto, using(crate::proofs::CalmLemmas::wire_steps))]
fn live_spokes<N: PlannedNetwork>(network: &N, service: ServiceId, edge: EdgeId) -> usize
    ensures { result ≡ count_wires (is_spoke_where (N.carries network.now) service edge.0) 0 (N.plan network.now).wires }
{
    let wires = network.plan().wires.as_slice();
    let mut live: usize = 0;
    for (place, row) in wires.iter().enumerate() {
        if starts_spoke(row, service, edge) && network.carries(WireId(place as u16), row) {
            live += 1;
        }
    }
    live
}
