//! Two edges in independent mode with a wire between them, and what is on its way. What the calls ask of the plan is looked at.
ghost use Rattle.std.specs.Prelude.{◌≡◌, is_some};
ghost use Rattle.independent_model.specs.Wires.{other_end, other_of_two};

use crate::links::link_of;
use crate::scenarios::{A, B, plan_of};
use independent_mode::{IndepEdge, IndepStop, Wish};
use net_base::{EdgeId, LinkCall, MemLink, Plan, WireId};
use std::alloc::Global;
use std::process::Abort;

const W: WireId = WireId(0);

/// One of two edges, its link, and what it has put that its peer has not heard.
#[derive(Drop)]
pub struct End {
    pub me: EdgeId,
    pub edge: IndepEdge,
    pub link: MemLink,
    taken: usize,
    way: Vec<u8>,
}

// The edge of a scenario with this place.
fn opened(rt: &impl Abort, alloc: Global, pieces: &[&str], me: EdgeId) -> IndepEdge {
    let plan = plan_of(rt, alloc, pieces);
    assert!(rt; (me.0 as usize) < plan.edges.len());
    let edge = IndepEdge::open(alloc, &plan, me).expect(rt, "memory");
    drop(plan);
    edge
}

/// The edge of a scenario with this place before its first call; the call of its link with this number fails, and none for 0.
pub fn end_of(rt: &impl Abort, alloc: Global, pieces: &[&str], me: EdgeId, fails: u64) -> End {
    End {
        me,
        edge: opened(rt, alloc, pieces, me),
        link: link_of(rt, alloc, fails),
        taken: 0,
        way: Vec::new(alloc),
    }
}

// Whether a path has two edges, and this one is one of them.
fn is_of_two(path: &[EdgeId], me: EdgeId) -> bool
    ensures { result ≡ is_some (other_of_two path.now me.0) }
{
    match path {
        [first, last] => me == *first || me == *last,
        _ => false,
    }
}

// Whether the wire has two edges and ends at this one.
fn ends_at(plan: &Plan, me: EdgeId) -> bool
    ensures { result ≡ is_some (other_end plan.now me.0 W.0) }
{
    match plan.wires.as_slice().get(0) {
        Some(row) => is_of_two(row.path.as_slice(), me),
        None => false,
    }
}

/// A connection with a peer stands.
pub fn connected(
    rt: &impl Abort,
    alloc: Global,
    end: &mut End,
    peer: EdgeId,
) -> Result<(), IndepStop> {
    assert!(rt; (peer.0 as usize) < end.edge.plan().edges.len());
    end.edge.connected(alloc, peer, &mut end.link)
}

/// It is lost.
pub fn lost(rt: &impl Abort, end: &mut End, peer: EdgeId) {
    assert!(rt; (peer.0 as usize) < end.edge.plan().edges.len());
    end.edge.lost(peer);
}

/// Octets of a peer come.
pub fn hear(
    rt: &impl Abort,
    alloc: Global,
    end: &mut End,
    peer: EdgeId,
    octets: &[u8],
) -> Result<(), IndepStop> {
    assert!(rt; (peer.0 as usize) < end.edge.plan().edges.len());
    end.edge.hear(alloc, peer, octets, &mut end.link)
}

/// The wire is called something else.
pub fn set(rt: &impl Abort, alloc: Global, end: &mut End, to: Wish) -> Result<bool, IndepStop> {
    assert!(rt; ends_at(end.edge.plan(), end.edge.me()));
    end.edge.set(alloc, W, to, &mut end.link)
}

/// Whether the wire is used.
pub fn uses(rt: &impl Abort, end: &End) -> bool {
    assert!(rt; end.edge.plan().wires.len() > 0);
    end.edge.uses(W)
}

/// Whether the wire is called so.
pub fn calls_so(rt: &impl Abort, end: &End, wish: Wish) -> bool {
    assert!(rt; end.edge.plan().wires.len() > 0);
    end.edge.calls_so(W, wish)
}

/// Does steps, which commas part: both ends `connect`, the first one first; both `lose` the connection, and all that is on its way is lost;
/// all octets `settle`, in pieces of at most so many, until nothing is on its way. An end, `A` or `B`, `asks`, is `active` or `standby`, or
/// `hears` so many octets of the other one at most.
pub fn run(rt: &impl Abort, alloc: Global, a: &mut End, b: &mut End, steps: &str) {
    for step in steps.split(", ") {
        do_step(rt, alloc, a, b, step);
    }
}

// The words before and behind the first blank.
fn cut(words: &str) -> (&str, &str) {
    match words.split_once(' ') {
        Some(parts) => parts,
        None => (words, ""),
    }
}

// The number of these digits.
fn number(rt: &impl Abort, digits: &str) -> usize {
    digits.parse::<usize>().ok().expect(rt, "a number")
}

fn do_step(rt: &impl Abort, alloc: Global, a: &mut End, b: &mut End, step: &str) {
    let (first, more) = cut(step);
    match first.as_bytes() {
        [b'A', ..] => end_does(rt, alloc, a, b, more),
        [b'B', ..] => end_does(rt, alloc, b, a, more),
        [b'c', ..] => {
            connected(rt, alloc, a, B).expect(rt, "connected");
            connected(rt, alloc, b, A).expect(rt, "connected");
        }
        [b'l', ..] => {
            lost(rt, a, B);
            lost(rt, b, A);
            forget(rt, a);
            forget(rt, b);
        }
        [b's', ..] => settle(rt, alloc, a, b, number(rt, more)),
        _ => assert!(rt; first.is_empty(), "{step}"),
    }
}

// An end of a wire hears so many octets of the other one, or calls the wire something else.
fn end_does(rt: &impl Abort, alloc: Global, end: &mut End, other: &mut End, words: &str) {
    let (first, more) = cut(words);
    match first.as_bytes() {
        [b'h', ..] => {
            bring(rt, alloc, other, end, number(rt, more));
        }
        [b'a', b's', ..] => set_twice(rt, alloc, end, Wish::Ask),
        [b'a', ..] => set_twice(rt, alloc, end, Wish::Active),
        [b's', ..] => set_twice(rt, alloc, end, Wish::Standby),
        _ => assert!(rt; false, "{words}"),
    }
}

// The wire is called something else; the second time that is no change.
fn set_twice(rt: &impl Abort, alloc: Global, end: &mut End, to: Wish) {
    assert!(rt; set(rt, alloc, end, to).expect(rt, "set"));
    assert!(rt; !set(rt, alloc, end, to).expect(rt, "set"));
}

// What an edge has put goes on its way.
fn collect(rt: &impl Abort, end: &mut End) {
    let count = end.link.calls().len();
    for place in end.taken..count {
        let call = end.link.calls().get(place).expect(rt, "a call");
        end.way
            .extend_from_slice(call.bytes.as_slice())
            .expect(rt, "memory");
    }
    end.taken = count;
}

// What is on its way is lost.
fn forget(rt: &impl Abort, end: &mut End) {
    collect(rt, end);
    end.way.clear();
}

// The first octets that are on their way come, and it is answered whether there were some.
fn bring(rt: &impl Abort, alloc: Global, from: &mut End, to: &mut End, count: usize) -> bool {
    collect(rt, from);
    let some = count.min(from.way.len());
    let (piece, _) = from.way.as_slice().split_at(some);
    hear(rt, alloc, to, from.me, piece).expect(rt, "heard");
    let left = from.way.len() - some;
    from.way.rotate_left(some);
    from.way.truncate(left);
    some > 0
}

fn settle(rt: &impl Abort, alloc: Global, a: &mut End, b: &mut End, size: usize) {
    for _turn in 0..1000 {
        if !bring(rt, alloc, a, b, size) && !bring(rt, alloc, b, a, size) {
            return;
        }
    }
    assert!(rt; false);
}

// Whether a call has put a status: the octet at its place in a Notification of one status of a wire.
fn is_status(call: Option<&LinkCall>, status: u8) -> bool {
    match call {
        Some(call) => call.bytes.len() == 56 && call.bytes.as_slice().get(39) == Some(&status),
        None => false,
    }
}

/// Whether an end has told these statuses so far, in messages that are numbered from 1 on each connection.
pub fn has_told(end: &End, statuses: &[u8]) -> bool {
    let calls = end.link.calls();
    let mut same = calls.len() == statuses.len();
    for (place, status) in statuses.iter().enumerate() {
        same = same && is_status(calls.get(place), *status);
    }
    same
}
