//! Which services are full.
ghost use Rattle.std.specs.Prelude.{◌≡◌, ◌==◌, ◌<◌, ◌≤◌, ◌&&◌, ◌||◌, not, ℕ, Some, slice_get};
ghost use Rattle.net_base.specs.plan.Roles.{all_below, is_mesh_of};
ghost use Rattle.calm_services.specs.{Calm.{all_pairs, is_full_where, meshes_where}, EdgePairs.{AreEdgesOf, AreMeshed, has_pair, is_core_of}};

use crate::PlannedNetwork;
use crate::edge_pairs::EdgePairs;
use crate::service_edges::{ServiceEdges, is_spoke};
use net_base::{EdgeId, ServiceId, WireId, WirePlan};

/// Whether each two core edges of the service have a mesh wire that carries frames (RFC 4762 section 4.4). A core edge has a port of
/// the service, and starts no spoke of it. It takes no memory.
pub fn is_full<N: PlannedNetwork>(network: &N, service: ServiceId) -> bool
    ensures { result ≡ is_full_where (N.plan network.now) (N.carries network.now) service }
{
    let edges = ServiceEdges::of(network.plan(), service);
    is_full_among(network, service, &edges)
}

/// The same, where the edges of the service are known.
pub(crate) fn is_full_among<N: PlannedNetwork>(
    network: &N,
    service: ServiceId,
    edges: &ServiceEdges,
) -> bool
    requires { AreEdgesOf (N.plan network.now) service edges.now }
    ensures { result ≡ is_full_where (N.plan network.now) (N.carries network.now) service }
{
    let pairs = meshed(network, service);
    are_meshed(edges, &pairs, network.plan().edges.len())
}

// Each two core edges below a number are a pair.
#[tactic(auto, using(crate::proofs::CalmLemmas::below_more))]
fn are_meshed(edges: &ServiceEdges, pairs: &EdgePairs, count: usize) -> bool
    requires { count ≤ 64 }
    ensures { result ≡ all_pairs count (λ a b. not (is_core_of edges.now a && is_core_of edges.now b) || (a == b || has_pair pairs.now a b)) }
{
    for a in 0..count {
        if !is_meshed(edges, pairs, count, EdgeId(a as u16)) {
            return false;
        }
    }
    true
}

// The edge is a pair with each other core edge below a number, where it is one.
#[tactic(auto, using(crate::proofs::CalmLemmas::below_more))]
fn is_meshed(edges: &ServiceEdges, pairs: &EdgePairs, count: usize, a: EdgeId) -> bool
    requires count { count ≤ 64 }
    requires a { a.0 < 64 }
    ensures { result ≡ all_below count (λ b. not (is_core_of edges.now a.0 && is_core_of edges.now b) || (a.0 == b || has_pair pairs.now a.0 b)) }
{
    for b in 0..count {
        if !is_meshed_with(edges, pairs, a, EdgeId(b as u16)) {
            return false;
        }
    }
    true
}

// The two edges are a pair, where they are two core edges.
fn is_meshed_with(edges: &ServiceEdges, pairs: &EdgePairs, a: EdgeId, b: EdgeId) -> bool
    requires a { a.0 < 64 }
    requires b { b.0 < 64 }
    ensures { result ≡ (not (is_core_of edges.now a.0 && is_core_of edges.now b.0) || (a.0 == b.0 || has_pair pairs.now a.0 b.0)) }
{
    if !(edges.is_core(a) && edges.is_core(b)) {
        return true;
    }
    a == b || pairs.contains(a.0, b.0)
}

// The pairs of edges between which a mesh wire of the service carries frames.
#[tactic(auto, using(crate::proofs::PairLemmas::wires_end))]
fn meshed<N: PlannedNetwork>(network: &N, service: ServiceId) -> EdgePairs
    ensures { AreMeshed (N.plan network.now) (N.carries network.now) service result }
{
    let mut pairs = EdgePairs::empty();
    let wires = network.plan().wires.as_slice();
    for (place, wire) in wires.iter().enumerate() {
        mesh_wire(network, &mut pairs, WireId(place as u16), wire, service);
    }
    pairs
}

// The pair of terminal edges of a wire, where it is a mesh wire of the service that carries frames.
#[tactic(auto, using(crate::proofs::PairLemmas::mesh_put, crate::proofs::PairLemmas::mesh_not))]
fn mesh_wire<N: PlannedNetwork>(
    network: &N,
    pairs: &mut EdgePairs,
    wire: WireId,
    row: &WirePlan,
    service: ServiceId,
)
    requires { slice_get (N.plan network.now).wires wire.0 ≡ Some row.now }
    ensures { (x y : ℕ) → x < 64 → y < 64 → has_pair pairs.new x y ≡ meshes_where (N.carries network.now) service x y wire.0 row.now || has_pair pairs.old x y }
{
    if is_live_mesh(network, wire, row, service) {
        pairs.join_ends(row.path.as_slice());
    }
}

// The wire is a mesh wire of the service that carries frames.
fn is_live_mesh<N: PlannedNetwork>(
    network: &N,
    wire: WireId,
    row: &WirePlan,
    service: ServiceId,
) -> bool
    requires { slice_get (N.plan network.now).wires wire.0 ≡ Some row.now }
    ensures { result ≡ (is_mesh_of service row.now && N.carries network.now wire.0 row.now) }
{
    (row.service == service && !is_spoke(row.class)) && network.carries(wire, row)
}
