//! Where MAC withdraws go on from an edge, and in how many pieces they are told, worked out by hand.

use crate::plans::{has_room, plan};
use crate::words::holds;
use hvpls_spokes::{PortKind, Ports, Role};
use mac_withdraw::{pass_to, pieces};
use net_base::{EdgeId, Plan, ServiceId};
use std::alloc::Global;
use std::process::Abort;

// Core edges 1, 2 and 3 in full mesh; edge 0 with a spoke to edge 1 and one to edge 2, and edge 4 with a spoke to edge 1. The one
// circuit is at edge 1, so the ports of edge 1 are the circuit, two mesh wires and two spokes.
const HIERARCHY: &str =
    "mesh v 12 1, mesh w 13 2, mesh u 23 3, spoke p 01 4, spoke q 02 5, spoke r 41 6";

// The ports of the service of a plan at an edge.
fn ports_of(rt: &impl Abort, alloc: Global, plan: &Plan, edge: u16) -> Ports {
    has_room(rt, plan);
    holds(rt, usize::from(edge) < plan.edges.len(), "an edge");
    holds(rt, plan.services.len() == 1, "one service");
    plan.check().expect(rt, "a plan without a fault");
    Ports::open(alloc, plan, ServiceId(0), EdgeId(edge)).expect(rt, "memory")
}

// What came by the wire port `from` is passed on by these ports alone.
fn passes(rt: &impl Abort, ports: &Ports, role: Role, from: u16, to: &[u16]) {
    let kind = ports.kind(from);
    assert!(rt; kind == Some(PortKind::Mesh) || kind == Some(PortKind::Spoke));
    let passed = pass_to(ports, role, from);
    for port in 0..ports.len() {
        let is_passed = passed.contains(port);
        holds(
            rt,
            is_passed == to.contains(&port),
            "passed on by the ports of the row alone",
        );
    }
}

// An edge with its role and so many ports; and a wire port there, and the ports by which is passed on what came by it.
type Row = (u16, Role, u16, u16, &'static [u16]);

const ROWS: [Row; 6] = [
    (1, Role::Core, 5, 1, &[3, 4]),
    (1, Role::Core, 5, 2, &[3, 4]),
    (1, Role::Core, 5, 3, &[1, 2, 4]),
    (1, Role::Core, 5, 4, &[1, 2, 3]),
    (0, Role::SpokeEdge, 2, 0, &[]),
    (0, Role::SpokeEdge, 2, 1, &[]),
];

// What came by the wire port of a row is passed on by its ports alone.
fn pass(rt: &impl Abort, alloc: Global, plan: &Plan, row: &Row) {
    let (edge, role, count, from, to) = *row;
    let ports = ports_of(rt, alloc, plan, edge);
    holds(rt, ports.len() == count, "so many ports");
    passes(rt, &ports, role, from, to);
}

#[test]
fn passes_on(rt: HostRuntime) {
    let plan = plan(&rt, rt.alloc(), HIERARCHY);
    for row in ROWS.as_slice() {
        pass(&rt, rt.alloc(), &plan, row);
    }
}

// Numbers of addresses, and how many pieces they take.
const PIECES: [(usize, usize); 6] = [(0, 1), (1, 1), (30, 1), (31, 2), (60, 2), (61, 3)];

#[test]
fn tells_at_most_30_addresses_in_a_piece(rt: HostRuntime) {
    for (count, want) in PIECES.as_slice() {
        holds(&rt, pieces(*count) == *want, "so many pieces");
    }
}
