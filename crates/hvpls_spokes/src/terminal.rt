//! Terminal edges of wires.
ghost use Rattle.std.specs.Prelude.{◌≡◌, ◌&&◌, ◌||◌, not};
ghost use Rattle.net_base.specs.{plan.Paths.{is_first, is_last}, plan.Places.{is_mesh_class}};
ghost use Rattle.net_base.specs.plan.Roles.{is_mesh_of, is_spoke_from, wire_ends_at};

use net_base::{Class, EdgeId, ServiceId, WirePlan, first_of, last_of};

/// Whether the wire is one of the service, and the edge a terminal edge of it: the first of its path, or the last
/// (RFC 6073 section 4).
pub(crate) fn ends_at(wire: &WirePlan, service: ServiceId, edge: EdgeId) -> bool
    ensures { result ≡ wire_ends_at service edge.0 wire.now }
{
    wire.service == service && is_terminal(wire.path.as_slice(), edge)
}

/// Whether the wire is a spoke of the service, and the edge its spoke edge, the first of its path (RFC 4762 section 10.1).
pub fn starts_spoke(wire: &WirePlan, service: ServiceId, edge: EdgeId) -> bool
    ensures { result ≡ is_spoke_from service edge.0 wire.now }
{
    (wire.service == service && is_spoke(wire.class)) && is_first(wire.path.as_slice(), edge)
}

fn is_spoke(class: Class) -> bool
    ensures { result ≡ not (is_mesh_class class) }
{
    match class {
        Class::Mesh => false,
        Class::Spoke => true,
    }
}

/// Whether the wire is a mesh wire of the service, and its path goes from one of the two edges to the other (RFC 4762 section 4.4).
pub fn is_mesh_between(wire: &WirePlan, service: ServiceId, a: EdgeId, b: EdgeId) -> bool
    ensures { result ≡ (is_mesh_of service wire.now && ((is_first a.0 wire.now.path && is_last b.0 wire.now.path) || (is_first b.0 wire.now.path && is_last a.0 wire.now.path))) }
{
    let path = wire.path.as_slice();
    (wire.service == service && !is_spoke(wire.class)) && (goes(path, a, b) || goes(path, b, a))
}

// Whether the path starts at the one edge and ends at the other one.
fn goes(path: &[EdgeId], from: EdgeId, to: EdgeId) -> bool
    ensures { result ≡ (is_first from.0 path.now && is_last to.0 path.now) }
{
    is_first(path, from) && is_last(path, to)
}

/// Whether the path starts or ends at the edge.
pub fn is_terminal(path: &[EdgeId], edge: EdgeId) -> bool
    ensures { result ≡ (is_first edge.0 path.now || is_last edge.0 path.now) }
{
    is_first(path, edge) || is_last(path, edge)
}

// Whether the edge is the first of the path.
fn is_first(path: &[EdgeId], edge: EdgeId) -> bool
    ensures { result ≡ is_first edge.0 path.now }
{
    match first_of(path) {
        Some(first) => edge == first,
        None => false,
    }
}

/// Whether the edge is the last of the path.
#[tactic(auto, using(net_base::proofs::PathLemmas::is_last_edge))]
pub fn is_last(path: &[EdgeId], edge: EdgeId) -> bool
    ensures { result ≡ is_last edge.0 path.now }
{
    match last_of(path) {
        Some(last) => edge == last,
        None => false,
    }
}
