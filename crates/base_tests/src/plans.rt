//! Small plans, with faults that were found by hand.
ghost use Rattle.std.specs.Prelude.{◌≤◌, length};

use crate::rows;
use crate::rows::reads_as;
use crate::steps::{cut, number_of};
use crate::words::{holds, is_same, is_told};
use hvpls_spokes::role;
use net_base::{
    Addr, CircuitPlan, Class, EdgeId, EdgePlan, List, Name, Offer, Plan, ServiceId, ServicePlan,
    Text, WirePlan,
};
use std::alloc::Global;
use std::process::Abort;

fn name(rt: &impl Abort, text: &str) -> Name {
    Name::read(text).expect(rt, "a name")
}

fn edge(rt: &impl Abort, text: &str, number: u8) -> EdgePlan {
    EdgePlan {
        name: name(rt, text),
        address: Addr([192, 0, 2, number]),
        first_label: 16,
        keepalive: 180,
        max_pdu: 4096,
    }
}

fn circuit(rt: &impl Abort, text: &str) -> CircuitPlan {
    CircuitPlan {
        name: name(rt, text),
        edge: EdgeId(1),
        service: ServiceId(0),
        tag: None,
    }
}

fn offer(rt: &impl Abort) -> Offer {
    Offer {
        tagged: false,
        cword: true,
        mtu: Some(1500),
        vlan: None,
        vccv: None,
        status: true,
        group: 0,
        description: Text::read(b"").expect(rt, "a text"),
    }
}

// The edges of these digits.
fn path_of(rt: &impl Abort, alloc: Global, digits: &str) -> List<EdgeId> {
    let mut path = List::new(alloc);
    for digit in digits.as_bytes() {
        path.push(EdgeId((*digit % 16) as u16)).expect(rt, "memory");
    }
    path
}

// The wire of these words, as `mesh v 12 7`: its class, its name, the edges of its path, a digit each, and its PW ID.
fn wire(rt: &impl Abort, alloc: Global, words: &str) -> WirePlan {
    let (class, words) = cut(rt, words);
    let (text, words) = cut(rt, words);
    let (path, pw_id) = cut(rt, words);
    let is_mesh = is_same(class.as_bytes(), b"mesh");
    WirePlan {
        name: name(rt, text),
        service: ServiceId(0),
        class: if is_mesh { Class::Mesh } else { Class::Spoke },
        pw_id: number_of(rt, pw_id),
        near: offer(rt),
        far: offer(rt),
        priority: 100,
        path: path_of(rt, alloc, path),
    }
}

const NAMES: [(u8, &'static str); 6] = [(1, "x"), (2, "a"), (3, "b"), (4, "c"), (5, "d"), (6, "e")];

// Adds an edge of this address.
fn add_edge(rt: &impl Abort, plan: &mut Plan, text: &str, number: u8) {
    plan.edges.push(edge(rt, text, number)).expect(rt, "memory");
}

// Adds a circuit at edge 1.
fn add_circuit(rt: &impl Abort, plan: &mut Plan, name: &str) {
    plan.circuits.push(circuit(rt, name)).expect(rt, "memory");
}

// Adds these wires.
fn add_wires(rt: &impl Abort, alloc: Global, plan: &mut Plan, rows: &str) {
    if rows.is_empty() {
        return;
    }
    for words in rows.split(',') {
        let wire = wire(rt, alloc, words.trim());
        plan.wires.push(wire).expect(rt, "memory");
    }
}

fn fill(rt: &impl Abort, alloc: Global, plan: &mut Plan, rows: &str) {
    for (number, name) in NAMES.as_slice() {
        add_edge(rt, plan, name, *number);
    }
    let service = ServicePlan {
        name: name(rt, "red"),
        mtu: 1500,
        age: 300,
    };
    plan.services.push(service).expect(rt, "memory");
    add_circuit(rt, plan, "site");
    add_wires(rt, alloc, plan, rows);
}

/// Six edges, one service, one circuit at edge 1, and these wires.
pub fn plan(rt: &impl Abort, alloc: Global, rows: &str) -> Plan {
    let mut plan = Plan {
        edges: List::new(alloc),
        services: List::new(alloc),
        circuits: List::new(alloc),
        wires: List::new(alloc),
    };
    fill(rt, alloc, &mut plan, rows);
    plan
}

/// A plan has no more rows of each kind than a plan may have.
pub fn has_room(rt: &impl Abort, plan: &Plan)
    ensures edges { length plan.now.edges ≤ 64 }
    ensures services { length plan.now.services ≤ 64 }
    ensures circuits { length plan.now.circuits ≤ 512 }
    ensures wires { length plan.now.wires ≤ 1024 }
{
    holds(rt, plan.edges.len() <= 64, "64 edges at most");
    holds(rt, plan.services.len() <= 64, "64 services at most");
    holds(rt, plan.circuits.len() <= 512, "512 circuits at most");
    holds(rt, plan.wires.len() <= 1024, "1,024 wires at most");
}

// The plan has the fault of these words.
fn has_fault(rt: &impl Abort, alloc: Global, plan: &Plan, words: &str) {
    has_room(rt, plan);
    is_told(rt, alloc, &plan.check().err(), words);
}

// Two wires, and behind `= ` the first fault of their plan.
const ROWS: &str = "
    mesh v 12 7, spoke w 01 7 = None
    mesh v 12 7, mesh w 12345 8 = None
    mesh v 16 7, mesh w 13 7 = Some(UnknownName(Place { table: Wire, index: 1, key: 'path' }))
    mesh v 12 0, mesh w 13 7 = Some(OutOfRange(Place { table: Wire, index: 1, key: 'pw_id' }))
    mesh v 12 7, mesh v 13 7 = Some(RepeatedName(Place { table: Wire, index: 2, key: 'name' }))
    mesh red 12 7, mesh w 13 7 = Some(RepeatedName(Place { table: Wire, index: 1, key: 'name' }))
    mesh v 1 7, mesh w 12 7 = Some(PathTooLong(Place { table: Wire, index: 1, key: 'path' }))
    mesh v 12 7, mesh w 012345 8 = Some(PathTooLong(Place { table: Wire, index: 2, key: 'path' }))
    mesh v 12 7, mesh w 131 8 = Some(PathRepeats(Place { table: Wire, index: 2, key: 'path' }))
    mesh v 12 7, mesh w 321 7 = Some(RepeatedPwId(Place { table: Wire, index: 2, key: 'pw_id' }))
    mesh v 12 7, mesh w 231 8 = Some(TwoMeshWires(Place { table: Wire, index: 2, key: 'path' }))
    spoke v 01 7, mesh w 03 7 = Some(SpokeInMesh(Place { table: Wire, index: 2, key: 'path' }))
    spoke v 01 7, spoke w 12 7 = Some(SpokeInMesh(Place { table: Wire, index: 2, key: 'path' }))
";

const REPEATED_ADDRESS: &str =
    "Some(RepeatedName(Place { table: Edge, index: 7, key: 'address' }))";

// Adds 510 circuits at edge 1.
fn add_circuits(rt: &impl Abort, alloc: Global, plan: &mut Plan) {
    for number in 1..511 {
        let name = format!(in alloc; "site_{number}").expect(rt, "memory");
        add_circuit(rt, plan, name.as_str());
    }
}

const TOO_MANY_PORTS: &str = "Some(OutOfRange(Place { table: Service, index: 1, key: 'name' }))";

// With 511 circuits and a wire, edge 1 has 512 ports of the service; with one circuit more it has too many.
fn counts_ports(rt: &impl Abort, alloc: Global, plan: &mut Plan) {
    add_circuits(rt, alloc, plan);
    has_fault(rt, alloc, plan, "None");
    add_circuit(rt, plan, "last");
    has_fault(rt, alloc, plan, TOO_MANY_PORTS);
}

const THREE_EDGES: [EdgeId; 3] = [EdgeId(1), EdgeId(2), EdgeId(3)];

// Each wire passes edges 1, 2 and 3 and has PW ID 7.
fn pass_three_edges(rt: &impl Abort, wires: &[WirePlan]) {
    for wire in wires {
        holds(
            rt,
            wire.path.as_slice() == THREE_EDGES.as_slice(),
            "edges 1, 2 and 3",
        );
        holds(rt, wire.pw_id == 7, "PW ID 7");
    }
}

// A copy of a plan with a wire over edges 1, 2 and 3.
fn is_copied(rt: &impl Abort, plan: &Plan, copy: &Plan) {
    holds(
        rt,
        copy.edges.as_slice() == plan.edges.as_slice(),
        "the same edges",
    );
    holds(rt, copy.joined(EdgeId(3), EdgeId(2)), "joined");
    holds(rt, !copy.joined(EdgeId(3), EdgeId(1)), "not joined");
    pass_three_edges(rt, copy.wires.as_slice());
}

// A plan with a wire over edges 1, 2 and 3 is copied.
fn copies(rt: &impl Abort, alloc: Global, plan: &Plan) {
    let copy = plan.copy(alloc).expect(rt, "memory");
    is_copied(rt, plan, &copy);
}

// A service and an edge, and what the edge is to it.
const ROLES: [(u16, u16, &'static str); 5] = [
    (0, 0, "Some(SpokeEdge)"),
    (0, 1, "Some(Core)"),
    (0, 3, "Some(Core)"),
    (0, 2, "None"),
    (1, 0, "None"),
];

// What each edge is to a service of the plan.
fn has_roles(rt: &impl Abort, alloc: Global, plan: &Plan) {
    for (service, edge, words) in ROLES.as_slice() {
        let role = role(plan, ServiceId(*service), EdgeId(*edge));
        is_told(rt, alloc, &role, words);
    }
}

// What is tested of a plan: the fault of its words, that of an edge more with an address that another has, or of ports that
// are too many; how it is copied; and what edges are to its services.
#[derive(Clone, Copy)]
enum About {
    Fault,
    Address,
    Ports,
    Copy,
    Roles,
}

fn tells_of(rt: &impl Abort, alloc: Global, about: About, plan: &mut Plan, words: &str) {
    match about {
        About::Fault => has_fault(rt, alloc, plan, words),
        About::Address => {
            add_edge(rt, plan, "f", 3);
            has_fault(rt, alloc, plan, words);
        }
        About::Ports => counts_ports(rt, alloc, plan),
        About::Copy => copies(rt, alloc, plan),
        About::Roles => has_roles(rt, alloc, plan),
    }
}

// A plan with these wires agrees.
fn agrees(rt: &impl Abort, alloc: Global, about: About, wires: &str, words: &str) {
    let mut plan = plan(rt, alloc, wires);
    tells_of(rt, alloc, about, &mut plan, words);
}

/// A plan with these wires has the first fault of these words.
pub fn has_first_fault(rt: &impl Abort, alloc: Global, wires: &str, words: &str) {
    agrees(rt, alloc, About::Fault, wires, words);
}

#[test]
fn finds_the_fault_of_a_wire(rt: HostRuntime) {
    reads_as(&rt, rt.alloc(), rows::About::Plans, ROWS, 13);
}

#[test]
fn tells_of_plans(rt: HostRuntime) {
    let alloc = rt.alloc();
    agrees(&rt, alloc, About::Address, "", REPEATED_ADDRESS);
    agrees(&rt, alloc, About::Ports, "spoke w 01 7", "");
    agrees(&rt, alloc, About::Copy, "mesh v 123 7", "");
    agrees(&rt, alloc, About::Roles, "spoke v 01 7, mesh w 123 8", "");
}

// Two edges; and whether the first of them has the other as a neighbour on a wire over the edges 1, 4, 3 and 2, and its mate
// there.
const NEIGHBOURS: [(u16, u16, &'static str); 8] = [
    (1, 4, "(true, None)"),
    (4, 1, "(true, Some(EdgeId(3)))"),
    (4, 3, "(true, Some(EdgeId(1)))"),
    (3, 4, "(true, Some(EdgeId(2)))"),
    (3, 2, "(true, Some(EdgeId(4)))"),
    (2, 3, "(true, None)"),
    (4, 2, "(false, None)"),
    (5, 1, "(false, None)"),
];

// What a wire tells of each two edges.
fn tells_each(rt: &impl Abort, alloc: Global, wire: &WirePlan) {
    for (me, from, words) in NEIGHBOURS.as_slice() {
        let (me, from) = (EdgeId(*me), EdgeId(*from));
        let told = (wire.are_neighbours(me, from), wire.mate(me, from));
        is_told(rt, alloc, &told, words);
    }
}

// The end of a wire at an edge offers this group.
fn offers(rt: &impl Abort, wire: &WirePlan, edge: EdgeId, group: u32) {
    holds(rt, wire.offer_of(edge).group == group, "the group");
}

#[test]
fn tells_the_ends_of_segments(rt: HostRuntime) {
    let mut wire = wire(&rt, rt.alloc(), "mesh v 1432 7");
    wire.far.group = 9;
    tells_each(&rt, rt.alloc(), &wire);
    offers(&rt, &wire, EdgeId(1), 0);
    offers(&rt, &wire, EdgeId(2), 9);
}
