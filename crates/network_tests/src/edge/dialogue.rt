//! Two edges, each over a link of its own, of which each takes what the other one's link took, and nothing else.

use crate::edge::proposals::{KEEP_ALIVE_OF_A, KEEP_ALIVE_OF_B, PROPOSAL_OF_A, PROPOSAL_OF_B};
use crate::edge::side::{Side, side_of, take};
use crate::edge::steps::{Step, play};
use crate::scenarios::{A, B, SITES};
use edge_model::Input;
use net_base::{DropCause, EdgeId, LinkCall, StateName};
use std::alloc::Global;
use std::process::Abort;

// Hands octets to an edge in pieces.
fn hand_pieces(
    rt: &impl Abort,
    alloc: Global,
    octets: &[u8],
    size: usize,
    to: &mut Side,
    peer: EdgeId,
) {
    let mut rest = octets;
    for _piece in 0..octets.len() {
        if rest.is_empty() {
            return;
        }
        let (bytes, behind) = rest.split_at(rest.len().min(size));
        take(rt, alloc, to, Input::Octets { peer, bytes });
        rest = behind;
    }
}

// Hands what a link took to the edge at the other end: a packet whole, and octets of the session in pieces.
fn hand(rt: &impl Abort, alloc: Global, call: &LinkCall, size: usize, to: &mut Side, peer: EdgeId) {
    let bytes = call.bytes.as_slice();
    if call.packet {
        take(rt, alloc, to, Input::Packet { bytes });
    } else {
        hand_pieces(rt, alloc, bytes, size, to, peer);
    }
}

// Hands what the link of one side took since the last time to the other side, whose neighbour it is.
fn hand_over(
    rt: &impl Abort,
    alloc: Global,
    from: &mut Side,
    to: &mut Side,
    peer: EdgeId,
    size: usize,
) {
    let count = from.link.calls().len();
    for place in from.handed..count {
        if let Some(call) = from.link.calls().get(place)
            && call.taken
        {
            hand(rt, alloc, call, size, to, peer);
        }
    }
    from.handed = count;
}

// What happens between two edges: which call of A's link fails (none for 0), what both do before they connect, how large the
// pieces are in which they hear each other, what A does then, and what B finds once it has what A's link took.
#[derive(Clone, Copy)]
struct Story<'a> {
    fails: u64,
    before: &'a [Step],
    size: usize,
    one: &'a [Step],
    other: &'a [Step],
}

// A story goes on between edges A and B: they connect, and hand each other what they put.
fn goes_on(rt: &impl Abort, alloc: Global, one: &mut Side, other: &mut Side, story: &Story<'_>) {
    play(rt, alloc, one, story.before);
    play(rt, alloc, other, story.before);
    take(rt, alloc, one, Input::Connected { peer: B });
    take(rt, alloc, other, Input::Connected { peer: A });
    for _turn in 0..4 {
        hand_over(rt, alloc, other, one, B, story.size);
        hand_over(rt, alloc, one, other, A, story.size);
    }
    play(rt, alloc, one, story.one);
    hand_over(rt, alloc, one, other, A, 4096);
    play(rt, alloc, other, story.other);
}

// Edge A meets edge B.
fn meets(rt: &impl Abort, alloc: Global, one: &mut Side, story: &Story<'_>) {
    let mut other = side_of(rt, alloc, SITES, B, 0);
    goes_on(rt, alloc, one, &mut other, story);
    drop(other);
}

// A story happens. Each edge is held by a function of its own: to let two go in one would take long to prove.
fn happens(rt: &impl Abort, alloc: Global, story: &Story<'_>) {
    let mut one = side_of(rt, alloc, SITES, A, story.fails);
    meets(rt, alloc, &mut one, story);
    drop(one);
}

const OFF: [Step; 1] = [Step::Wire(0, false)];

const UP_AT_A: [Step; 4] = [
    Step::Session(B, StateName::Operational),
    Step::Calls(2),
    Step::Put(0, B, PROPOSAL_OF_A),
    Step::Put(1, B, KEEP_ALIVE_OF_A),
];

const UP_AT_B: [Step; 4] = [
    Step::Session(A, StateName::Operational),
    Step::Calls(2),
    Step::Put(0, A, PROPOSAL_OF_B),
    Step::Put(1, A, KEEP_ALIVE_OF_B),
];

/// A frame from station 1 to all, and the packet that carries it under label 16 (RFC 3032 section 2.1, RFC 4448 section 4).
const BROADCAST: &str = "ffffffffffff 020000000001 0800";

const PACKET: &str = "000101ff 00000000 ffffffffffff 020000000001 0800";

// The first edge puts its Initialization, KeepAlive and Label Mapping; its fourth call is the packet.
const ENTERS: [Step; 5] = [
    Step::Frame(0, BROADCAST),
    Step::Gives(1),
    Step::SentOn(0, B, 0),
    Step::Calls(4),
    Step::Sent(3, B, PACKET),
];

const LEAVES: [Step; 2] = [Step::Gives(1), Step::Left(0, 1, BROADCAST)];

// The call for the first copy fails, and the next copy goes out again.
const DROPS_ONE: [Step; 6] = [
    Step::Frame(0, BROADCAST),
    Step::Dropped(DropCause::LinkFault),
    Step::Frame(0, BROADCAST),
    Step::Gives(1),
    Step::SentOn(0, B, 0),
    Step::Calls(5),
];

#[test]
fn comes_up_over_pieces_of_all_sizes(rt: HostRuntime) {
    for size in 1..37 {
        let story = Story {
            fails: 0,
            before: &OFF,
            size,
            one: &UP_AT_A,
            other: &UP_AT_B,
        };
        happens(&rt, rt.alloc(), &story);
    }
}

// A frame crosses, sent by these steps of the first edge; a call of its link may fail.
fn crosses(rt: &impl Abort, alloc: Global, fails: u64, steps: &[Step]) {
    let story = Story {
        fails,
        before: &[],
        size: 4096,
        one: steps,
        other: &LEAVES,
    };
    happens(rt, alloc, &story);
}

#[test]
fn crosses_between_two_links(rt: HostRuntime) {
    crosses(&rt, rt.alloc(), 0, &ENTERS);
    crosses(&rt, rt.alloc(), 4, &DROPS_ONE);
}
