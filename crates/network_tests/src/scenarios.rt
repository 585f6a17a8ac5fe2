//! The scenarios of these tests, as a planner writes them, in the pieces that they have in common, and their plans.
ghost use Rattle.net_base.specs.plan.Accepted.{IsChecked};

use net_base::{EdgeId, Plan};
use scenario_text::read_scenario;
use std::alloc::Global;
use std::process::Abort;

/// A scenario: the text that these pieces are, one behind the other.
pub type Pieces = &'static [&'static str];

/// The edges, in the order of each scenario.
pub const A: EdgeId = EdgeId(0);

pub const B: EdgeId = EdgeId(1);

pub const C: EdgeId = EdgeId(2);

pub const X: EdgeId = EdgeId(3);

// The first edge, also with one label left; and those behind it.
const ONE: &str = r#"version = 1
edge = [{ name = "a", address = "10.0.0.1" }, "#;

const LAST: &str = r#"version = 1
edge = [{ name = "a", address = "10.0.0.1", first_label = 1048575 }, "#;

const AND_B: &str = r#"{ name = "b", address = "10.0.0.2" }, "#;

const AND_C: &str = r#"{ name = "c", address = "10.0.0.3" }, "#;

const FOUR: &str = r#"version = 1
edge = [{ name = "a", address = "10.0.0.1" }, { name = "b", address = "10.0.0.2" },
{ name = "c", address = "10.0.0.3" }, { name = "x", address = "10.0.0.4" }, "#;

const TO_Z: &str =
    r#"{ name = "y", address = "10.0.0.5" }, { name = "z", address = "10.0.0.6" }, "#;

// The service, also one whose addresses age after two ticks, and one with frames of 9,216 octets.
const SERVICE: &str = r#"]
service = [{ name = "s" }]
"#;

const AGED: &str = r#"]
service = [{ name = "s", age = 2 }]
"#;

const LARGE: &str = r#"]
service = [{ name = "s", mtu = 9198 }]
"#;

// A circuit at each of the first two edges, of the next two, and of the last two.
const CIRCUITS: &str = r#"
circuit = [{ name = "ca", edge = "a", service = "s" }, { name = "cb", edge = "b", service = "s" }, "#;

const TO_CX: &str =
    r#"{ name = "cc", edge = "c", service = "s" }, { name = "cx", edge = "x", service = "s" }, "#;

const TO_CZ: &str =
    r#"{ name = "cy", edge = "y", service = "s" }, { name = "cz", edge = "z", service = "s" }, "#;

const END: &str = "]\n";

// A wire between the first two edges, and one over all three of them; what its ends offer follows.
const WIRE: &str = r#"
wire = [{ name = "w", service = "s", class = "mesh", path = ["a", "b"], pw_id = 100"#;

const LONG_WIRE: &str = r#"
wire = [{ name = "w", service = "s", class = "mesh", path = ["a", "b", "c"], pw_id = 100"#;

const OFFERS_NO_MORE: &str = " }]\n";

const OFFERS_HEADER: &str = ", vccv = 1 }]\n";

const OFFERS_ALERT: &str = ", vccv = 2, control_word = false }]\n";

const OFFERS_EXPIRY: &str = ", vccv = 4, control_word = false }]\n";

const OFFERS_BOTH: &str = ", vccv = 6, control_word = false }]\n";

/// Two edges, and a wire between them.
pub const PAIR: Pieces = &[ONE, AND_B, SERVICE, WIRE, OFFERS_NO_MORE];

/// The same with a circuit at each, where addresses age after two ticks.
pub const SITES: Pieces = &[ONE, AND_B, AGED, CIRCUITS, END, WIRE, OFFERS_NO_MORE];

/// The same, where the wire carries frames of 9,216 octets.
pub const LARGEST: Pieces = &[ONE, AND_B, LARGE, CIRCUITS, END, WIRE, OFFERS_NO_MORE];

/// The pair with a control word, whose ends offer the associated channel header (RFC 5085 section 5.1.1).
pub const BY_HEADER: Pieces = &[ONE, AND_B, SERVICE, WIRE, OFFERS_HEADER];

/// The same without a control word, whose ends offer the router alert label (RFC 5085 section 5.1.2).
pub const BY_ALERT: Pieces = &[ONE, AND_B, SERVICE, WIRE, OFFERS_ALERT];

/// The same, whose ends offer the TTL that expires (RFC 5085 section 5.1.3).
pub const BY_EXPIRY: Pieces = &[ONE, AND_B, SERVICE, WIRE, OFFERS_EXPIRY];

/// Three edges, and a wire from the first to the last of them, of which the second is a switching point.
pub const PATH: Pieces = &[ONE, AND_B, AND_C, SERVICE, LONG_WIRE, OFFERS_NO_MORE];

/// The same, whose ends offer the associated channel header.
pub const PATH_BY_HEADER: Pieces = &[ONE, AND_B, AND_C, SERVICE, LONG_WIRE, OFFERS_HEADER];

/// The same without a control word, whose ends offer the router alert label.
pub const PATH_BY_ALERT: Pieces = &[ONE, AND_B, AND_C, SERVICE, LONG_WIRE, OFFERS_ALERT];

/// The same, whose ends offer the TTL that expires too.
pub const PATH_BY_EXPIRY: Pieces = &[ONE, AND_B, AND_C, SERVICE, LONG_WIRE, OFFERS_BOTH];

// Three services.
const THREE_SERVICES: &str = r#"]
service = [{ name = "s" }, { name = "t" }, { name = "r" }]
"#;

// Wires of the others, behind another wire.
const AND_T: &str = r#" },
{ name = "w1", service = "t", class = "mesh", path = ["a", "b"], pw_id = 101"#;

const AND_R: &str = r#" },
{ name = "w2", service = "r", class = "mesh", path = ["a", "b"], pw_id = 102"#;

const AND_LONG_T: &str = r#" },
{ name = "l", service = "t", class = "mesh", path = ["a", "b", "c"], pw_id = 101"#;

/// Two edges and three wires between them, each of a service of its own.
pub const THREE_WIRES: Pieces = &[
    ONE,
    AND_B,
    THREE_SERVICES,
    WIRE,
    AND_T,
    AND_R,
    OFFERS_NO_MORE,
];

/// Three edges, a wire between the first two, and one over all three.
pub const SHORT_AND_LONG: Pieces = &[
    ONE,
    AND_B,
    AND_C,
    THREE_SERVICES,
    WIRE,
    AND_LONG_T,
    OFFERS_NO_MORE,
];

// A wire of the first service, behind another one.
const AND_A_TO_C: &str = r#" },
{ name = "w1", service = "s", class = "mesh", path = ["a", "c"], pw_id = 101"#;

// A full mesh of the first three edges, and a spoke from the fourth to the first.
const HUB_WIRES: &str = r#"
wire = [
  { name = "w", service = "s", class = "mesh", path = ["a", "b"], pw_id = 100 },
  { name = "w1", service = "s", class = "mesh", path = ["a", "c"], pw_id = 101 },
  { name = "w2", service = "s", class = "mesh", path = ["b", "c"], pw_id = 102 },
  { name = "w3", service = "s", class = "spoke", path = ["x", "a"], pw_id = 201 },
]
"#;

/// Three core edges in full mesh, and a spoke edge that hangs on the first of them: there, wires 0 and 1 are the mesh wires to B
/// and C, and wire 3 is the spoke from X.
pub const HUB: Pieces = &[FOUR, AGED, CIRCUITS, TO_CX, END, HUB_WIRES];

/// Circuits 0, 1 and 2 of service 0 at the first edge, the last of them with VLAN ID 7; at the second edge circuit 3 of service 0
/// and circuit 4 of service 1.
pub const BRIDGES: Pieces = &[
    ONE,
    AND_B,
    r#"]
service = [{ name = "s", age = 2 }, { name = "t", age = 2 }]
circuit = [
  { name = "c0", edge = "a", service = "s" },
  { name = "c1", edge = "a", service = "s" },
  { name = "c2", edge = "a", service = "s", tag = 7 },
  { name = "c3", edge = "b", service = "s" },
  { name = "c4", edge = "b", service = "t" },
]
"#,
];

/// Two edges, and three circuits at the first of them, for frames of 9,216 octets.
pub const BRIDGE: Pieces = &[
    ONE,
    AND_B,
    r#"]
service = [{ name = "s", mtu = 9198, age = 2 }]
circuit = [
  { name = "c0", edge = "a", service = "s" },
  { name = "c1", edge = "a", service = "s" },
  { name = "c2", edge = "a", service = "s" },
]
"#,
];

// Two circuits at the first edge.
const BOTH_AT_A: &str = r#"
circuit = [{ name = "c0", edge = "a", service = "s" }, { name = "c1", edge = "a", service = "s" }]
"#;

/// A core edge with two circuits, and its mesh wires to two others.
pub const CORE: Pieces = &[
    ONE,
    AND_B,
    AND_C,
    SERVICE,
    BOTH_AT_A,
    WIRE,
    AND_A_TO_C,
    OFFERS_NO_MORE,
];

// The first edge with four labels, and wires between it and the two others.
const FOUR_LABELS: &str = r#"version = 1
edge = [{ name = "a", address = "10.0.0.1", first_label = 1048572 }, "#;

const OF_GROUP_7: &str = r#"
wire = [
  { name = "v", service = "s", class = "mesh", path = ["a", "b"], pw_id = 100, group = 7 },
  { name = "w", service = "s", class = "mesh", path = ["c", "a"], pw_id = 100, group = 7 },
]
"#;

/// Wires from the first edge, which has four labels, to two others; their ends are of group 7.
pub const TWO_WIRES: Pieces = &[FOUR_LABELS, AND_B, AND_C, SERVICE, OF_GROUP_7];

/// The pair, where the first edge has one label left.
pub const LAST_LABEL: Pieces = &[LAST, AND_B, SERVICE, WIRE, OFFERS_NO_MORE];

// A wire from the first edge to the third, and one to the second.
const TO_C_AND_B: &str = r#"]
service = [{ name = "s" }, { name = "r" }]
wire = [
  { name = "w0", service = "s", class = "mesh", path = ["a", "c"], pw_id = 100 },
  { name = "w1", service = "r", class = "mesh", path = ["a", "b"], pw_id = 200 },
]
"#;

/// An edge that has one label left, with a wire to each of two others; the first wire goes to the last edge.
pub const LAST_LABEL_OF_TWO: Pieces = &[LAST, AND_B, AND_C, TO_C_AND_B];

// The third edge, whose sessions expire after 64 ticks.
const AND_C_FOR_64: &str = r#"{ name = "c", address = "10.0.0.3", keepalive = 64 }"#;

/// The same, where a session with the last edge expires after 64 ticks.
pub const LAST_LABEL_AND_A_SHORT_SESSION: Pieces = &[LAST, AND_B, AND_C_FOR_64, TO_C_AND_B];

// The seventh edge, and the wires of a network with switching points.
const AND_P: &str = r#"{ name = "p", address = "10.0.0.7" }"#;

const CHAIN_WIRES: &str = r#"
wire = [
  { name = "w0", service = "s", class = "mesh", path = ["a", "p", "y", "z", "b"], pw_id = 100 },
  { name = "w1", service = "s", class = "spoke", path = ["c", "y", "z", "p", "a"], pw_id = 201 },
  { name = "w2", service = "s", class = "spoke", path = ["x", "z", "y", "p", "b"], pw_id = 202 },
]
"#;

/// Two core edges, two spoke edges and three switching points. The mesh wire between the core edges and the spokes to each of them pass
/// all three switching points, each in an order of its own.
pub const CHAINS: Pieces = &[
    FOUR,
    TO_Z,
    AND_P,
    SERVICE,
    CIRCUITS,
    TO_CX,
    END,
    CHAIN_WIRES,
];

// A full mesh of the first four of six edges with a circuit each, and a spoke from each of the others.
const MESH: &str = r#"
wire = [
  { name = "w0", service = "s", class = "mesh", path = ["a", "b"], pw_id = 100 },
  { name = "w1", service = "s", class = "mesh", path = ["a", "c"], pw_id = 101 },
  { name = "w2", service = "s", class = "mesh", path = ["a", "x"], pw_id = 102 },
  { name = "w3", service = "s", class = "mesh", path = ["b", "c"], pw_id = 103 },
  { name = "w4", service = "s", class = "mesh", path = ["b", "x"], pw_id = 104 },
  { name = "w5", service = "s", class = "mesh", path = ["x", "c"], pw_id = 105 },
  { name = "w6", service = "s", class = "spoke", path = ["y", "a"], pw_id = 201, priority = 10 },
  { name = "w7", service = "s", class = "spoke", path = ["z", "c"], pw_id = 203, priority = 10 },
"#;

// A second spoke of the fifth edge.
const SECOND_SPOKE: &str = r#"
  { name = "w8", service = "s", class = "spoke", path = ["y", "b"], pw_id = 202, priority = 10 },
"#;

/// A hierarchy of four core edges and two spoke edges, with a spoke each; and where the first of these has two.
pub const HIERARCHY: Pieces = &[FOUR, TO_Z, SERVICE, CIRCUITS, TO_CX, TO_CZ, END, MESH, END];

pub const TWO_SPOKES: Pieces = &[
    FOUR,
    TO_Z,
    SERVICE,
    CIRCUITS,
    TO_CX,
    TO_CZ,
    END,
    MESH,
    SECOND_SPOKE,
    END,
];

// The text of these pieces.
fn joined(rt: &impl Abort, alloc: Global, pieces: &[&str]) -> String {
    let mut text = String::new(alloc);
    for piece in pieces {
        text.push_str(piece).expect(rt, "memory");
    }
    text
}

/// The plan of a scenario, which is given in pieces.
pub fn plan_of(rt: &impl Abort, alloc: Global, pieces: &[&str]) -> Plan
    ensures { IsChecked result }
{
    let text = joined(rt, alloc, pieces);
    read_scenario(alloc, text.as_bytes())
        .expect(rt, "a scenario")
        .plan
}
