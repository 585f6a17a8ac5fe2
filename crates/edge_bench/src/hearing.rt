//! KeepAlives that an edge hears of its neighbour.
ghost use Rattle.net_base.specs.plan.Accepted.{IsChecked};
ghost use Rattle.provider_edge.specs.Taking.{IsInRange};

use edge_model::Input;
use net_base::{EdgeId, List, MemLink, Plan, StateName};
use provider_edge::Edge;
use scenario_text::read_scenario;
use std::alloc::Global;
use std::mem;

/// Two edges with a circuit each, and a wire between them.
const PAIR: &str = r#"
version = 1
edge = [{ name = "a", address = "10.0.0.1" }, { name = "b", address = "10.0.0.2" }]
service = [{ name = "s" }]
circuit = [{ name = "ca", edge = "a", service = "s" }, { name = "cb", edge = "b", service = "s" }]
wire = [{ name = "w", service = "s", class = "mesh", path = ["a", "b"], pw_id = 100 }]
"#;

/// The neighbour.
const A: EdgeId = EdgeId(0);

/// Its Initialization and its KeepAlive (RFC 5036 sections 3.5.3 and 3.5.4).
const PROPOSAL: [u8; 36] = [
    0, 1, 0, 32, 10, 0, 0, 1, 0, 0, 2, 0, 0, 22, 0, 0, 0, 1, 5, 0, 0, 14, 0, 1, 0, 180, 0, 0, 16,
    0, 10, 0, 0, 2, 0, 0,
];

const KEEP_ALIVE: [u8; 18] = [0, 1, 0, 14, 10, 0, 0, 1, 0, 0, 2, 1, 0, 4, 0, 0, 0, 2];

/// An edge hears so many pieces of so many KeepAlives each, every one in a PDU of its own; how many KeepAlives they had. `None` where the
/// session is not up then, or something is held.
pub fn heard_in_pair(alloc: Global, count: u32, pieces: u32) -> Option<u64> {
    match read_scenario(alloc, PAIR.as_bytes()) {
        Ok(scenario) => heard_in(alloc, &scenario.plan, count, pieces),
        Err(_) => None,
    }
}

// The second edge of the plan hears the pieces; how many KeepAlives they had.
fn heard_in(alloc: Global, plan: &Plan, count: u32, pieces: u32) -> Option<u64>
    requires { IsChecked plan.now }
{
    if plan.edges.len() < 2 {
        return None;
    }
    match Edge::open(alloc, plan, EdgeId(1)) {
        Ok(mut edge) => {
            let heard = heard_by(alloc, &mut edge, count, pieces);
            // The system takes all memory back at once.
            mem::forget(edge);
            heard
        }
        Err(_) => None,
    }
}

// The edge hears the pieces over a link in memory; how many KeepAlives they had.
fn heard_by(alloc: Global, edge: &mut Edge, count: u32, pieces: u32) -> Option<u64> {
    match MemLink::new(alloc, List::new(alloc)) {
        Ok(mut link) => heard_over(alloc, edge, &mut link, count, pieces),
        Err(_) => None,
    }
}

// The session comes up, and the edge hears the pieces; how many KeepAlives they had, where the session is up then, and nothing is held.
fn heard_over(
    alloc: Global,
    edge: &mut Edge,
    link: &mut MemLink,
    count: u32,
    pieces: u32,
) -> Option<u64> {
    if !comes_up(alloc, edge, link) || !hears_pieces(alloc, edge, link, count, pieces) {
        return None;
    }
    if edge.session(A) != StateName::Operational || edge.held(A) > 0 {
        return None;
    }
    Some(u64::from(count) * u64::from(pieces))
}

// The connection with the neighbour stands, and its first octets come.
fn comes_up(alloc: Global, edge: &mut Edge, link: &mut MemLink) -> bool {
    takes(alloc, edge, link, Input::Connected { peer: A })
        && hears(alloc, edge, link, &PROPOSAL)
        && hears(alloc, edge, link, &KEEP_ALIVE)
}

// The edge takes an input, which applies.
fn takes(alloc: Global, edge: &mut Edge, link: &mut MemLink, input: Input<'_>) -> bool
    requires { IsInRange input }
{
    match edge.take(alloc, input, link) {
        Ok(effects) => !effects.idle,
        Err(_) => false,
    }
}

// The edge hears octets of its neighbour.
fn hears(alloc: Global, edge: &mut Edge, link: &mut MemLink, bytes: &[u8]) -> bool {
    takes(alloc, edge, link, Input::Octets { peer: A, bytes })
}

// The edge hears so many pieces of so many KeepAlives.
fn hears_pieces(
    alloc: Global,
    edge: &mut Edge,
    link: &mut MemLink,
    count: u32,
    pieces: u32,
) -> bool {
    let mut piece = Vec::new(alloc);
    if !fills(&mut piece, count) {
        return false;
    }
    for _number in 0..pieces {
        if !hears(alloc, edge, link, piece.as_slice()) {
            return false;
        }
    }
    true
}

// Makes a piece of so many KeepAlives.
fn fills(piece: &mut Vec<u8>, count: u32) -> bool {
    for _number in 0..count {
        if piece.extend_from_slice(&KEEP_ALIVE).is_err() {
            return false;
        }
    }
    true
}
