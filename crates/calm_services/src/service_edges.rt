//! The edges of a service, by one walk over a plan.
ghost use Rattle.std.specs.{Prelude.{◌≡◌, ◌<◌, ◌&&◌, ◌||◌, ◌==◌, not, ℕ}, List.{list_any}};
ghost use Rattle.hvpls_spokes.specs.PortSet.{holds_port};
ghost use Rattle.net_base.specs.plan.{Paths.{is_first, is_last, joins}, Places.{is_mesh_class}};
ghost use Rattle.net_base.specs.plan.Roles.{has_port, is_circuit_at, is_spoke_edge, is_spoke_from, is_wire_of, wire_ends_at};
ghost use Rattle.calm_services.specs.EdgePairs.{AreEdgesOf, AreJoined, has_pair, is_core_of};

use crate::edge_pairs::EdgePairs;
use hvpls_spokes::PortSet;
use net_base::{CircuitPlan, Class, EdgeId, Plan, ServiceId, WirePlan, last_of};

/// The pairs of edges that segments of the service's wires join.
pub(crate) fn joined(plan: &Plan, service: ServiceId) -> EdgePairs
    ensures { AreJoined plan.now service result }
{
    let mut pairs = EdgePairs::empty();
    join_wires(&mut pairs, plan.wires.as_slice(), service);
    pairs
}

// The pairs that these wires join, where they are wires of the service.
#[tactic(auto, using(crate::proofs::PairLemmas::step_more))]
fn join_wires(pairs: &mut EdgePairs, wires: &[WirePlan], service: ServiceId)
    ensures { (x y : ℕ) → x < 64 → y < 64 → has_pair pairs.new x y ≡ list_any (λ wire. is_wire_of service wire && joins x y wire.path) wires.now || has_pair pairs.old x y }
{
    let mut rest = wires;
    'joining: while let [wire, after @ ..] = rest {
        join_wire(pairs, wire, service);
        rest = after;
    }
}

// The pairs that a wire joins, where it is one of the service.
fn join_wire(pairs: &mut EdgePairs, wire: &WirePlan, service: ServiceId)
    ensures { (x y : ℕ) → x < 64 → y < 64 → has_pair pairs.new x y ≡ (is_wire_of service wire.now && joins x y wire.now.path) || has_pair pairs.old x y }
{
    if wire.service == service {
        pairs.join_path(wire.path.as_slice());
    }
}

/// The edges of a service: those that have circuits of it or ends of its wires, and those that start its spokes.
#[derive(Drop)]
pub(crate) struct ServiceEdges {
    pub ports: PortSet,
    pub spokes: PortSet,
}

impl ServiceEdges {
    /// The edges of a service by the plan.
    pub fn of(plan: &Plan, service: ServiceId) -> ServiceEdges
        ensures { AreEdgesOf plan.now service result }
    {
        ServiceEdges {
            ports: port_edges(plan, service),
            spokes: spoke_edges(plan, service),
        }
    }

    /// Whether an edge is a core edge.
    pub fn is_core(&self, edge: EdgeId) -> bool
        requires { edge.0 < 64 }
        ensures { result ≡ is_core_of self.now edge.0 }
    {
        self.ports.contains(edge.0) && !self.spokes.contains(edge.0)
    }
}

// The edges that start spokes of the service.
fn spoke_edges(plan: &Plan, service: ServiceId) -> PortSet
    ensures { (e : ℕ) → e < 512 → holds_port result e ≡ is_spoke_edge plan.now service e }
{
    let mut edges = PortSet::empty();
    put_spokes(&mut edges, plan.wires.as_slice(), service);
    edges
}

// The first edges of these wires, where they are spokes of the service.
#[tactic(auto, using(crate::proofs::PairLemmas::step_more))]
fn put_spokes(edges: &mut PortSet, wires: &[WirePlan], service: ServiceId)
    ensures { (e : ℕ) → e < 512 → holds_port edges.new e ≡ list_any (is_spoke_from service e) wires.now || holds_port edges.old e }
{
    let mut rest = wires;
    'putting: while let [wire, after @ ..] = rest {
        put_spoke(edges, wire, service);
        rest = after;
    }
}

// The first edge of a wire, where that is a spoke of the service.
fn put_spoke(edges: &mut PortSet, wire: &WirePlan, service: ServiceId)
    ensures { (e : ℕ) → e < 512 → holds_port edges.new e ≡ is_spoke_from service e wire.now || holds_port edges.old e }
{
    if wire.service == service && is_spoke(wire.class) {
        put_first(edges, wire.path.as_slice());
    }
}

/// Whether a wire of the class is a spoke.
pub(crate) fn is_spoke(class: Class) -> bool
    ensures { result ≡ not (is_mesh_class class) }
{
    match class {
        Class::Mesh => false,
        Class::Spoke => true,
    }
}

// The edges that have circuits of the service, or ends of its wires.
#[tactic(auto, using(crate::proofs::PairLemmas::ends_behind))]
fn port_edges(plan: &Plan, service: ServiceId) -> PortSet
    ensures { (e : ℕ) → e < 512 → holds_port result e ≡ has_port plan.now service e }
{
    let mut edges = PortSet::empty();
    put_circuits(&mut edges, plan.circuits.as_slice(), service);
    put_wires(&mut edges, plan.wires.as_slice(), service);
    edges
}

// The edges of these circuits, where they are circuits of the service.
#[tactic(auto, using(crate::proofs::PairLemmas::step_more))]
fn put_circuits(edges: &mut PortSet, circuits: &[CircuitPlan], service: ServiceId)
    ensures { (e : ℕ) → e < 512 → holds_port edges.new e ≡ list_any (is_circuit_at service e) circuits.now || holds_port edges.old e }
{
    let mut rest = circuits;
    'putting: while let [circuit, after @ ..] = rest {
        put_circuit(edges, circuit, service);
        rest = after;
    }
}

// The terminal edges of these wires, where they are wires of the service.
#[tactic(auto, using(crate::proofs::PairLemmas::step_more))]
fn put_wires(edges: &mut PortSet, wires: &[WirePlan], service: ServiceId)
    ensures { (e : ℕ) → e < 512 → holds_port edges.new e ≡ list_any (wire_ends_at service e) wires.now || holds_port edges.old e }
{
    let mut rest = wires;
    'putting: while let [wire, after @ ..] = rest {
        put_ends(edges, wire, service);
        rest = after;
    }
}

// The edge of a circuit, where that is one of the service.
#[tactic(auto, using(crate::proofs::PairLemmas::circuit_put))]
fn put_circuit(edges: &mut PortSet, circuit: &CircuitPlan, service: ServiceId)
    ensures { (e : ℕ) → e < 512 → holds_port edges.new e ≡ is_circuit_at service e circuit.now || holds_port edges.old e }
{
    if circuit.service == service {
        put(edges, circuit.edge);
    }
}

// Both terminal edges of a wire, where it is one of the service.
#[tactic(auto, using(crate::proofs::PairLemmas::last_first))]
fn put_ends(edges: &mut PortSet, wire: &WirePlan, service: ServiceId)
    ensures { (e : ℕ) → e < 512 → holds_port edges.new e ≡ wire_ends_at service e wire.now || holds_port edges.old e }
{
    if wire.service == service {
        put_last(edges, wire.path.as_slice());
        put_first(edges, wire.path.as_slice());
    }
}

// The first edge of a path.
fn put_first(edges: &mut PortSet, path: &[EdgeId])
    ensures { (e : ℕ) → e < 512 → holds_port edges.new e ≡ is_first e path.now || holds_port edges.old e }
{
    if let [first, ..] = path {
        put(edges, *first);
    }
}

// The last one.
#[tactic(auto, using(net_base::proofs::PathLemmas::is_last_edge))]
fn put_last(edges: &mut PortSet, path: &[EdgeId])
    ensures { (e : ℕ) → e < 512 → holds_port edges.new e ≡ is_last e path.now || holds_port edges.old e }
{
    if let Some(last) = last_of(path) {
        put(edges, last);
    }
}

// An edge.
#[tactic(auto, using(crate::proofs::PairLemmas::edge_put, crate::proofs::PairLemmas::edge_past))]
fn put(edges: &mut PortSet, edge: EdgeId)
    ensures { (e : ℕ) → e < 512 → holds_port edges.new e ≡ (e == edge.0) || holds_port edges.old e }
{
    if edge.0 < 512 {
        edges.insert(edge.0);
    }
}
