//! Switching points through their calls, with values and octets that were worked out by hand.
ghost use Rattle.std.specs.Prelude.{◌≡◌, Some};
ghost use Rattle.pw_signalling.specs.AnyEnd.{end_of};

use crate::steps::label;
use crate::words::{holds, is_same};
use net_base::{Addr, DropCause, Label, Text};
use pw_signalling::{Binding, PwEnd, PwIdle, Told};
use pw_stitch::{Side, Stitch, SwapDrop, accepts, is_same_but_status, relabel};
use pw_tlvs::{Point, Points, PwStatus, read_point, write_point};
use std::process::Abort;

const A: Addr = Addr([10, 0, 0, 1]);

const B: Addr = Addr([10, 0, 0, 2]);

const C: Addr = Addr([10, 0, 0, 3]);

const D: Addr = Addr([10, 0, 0, 4]);

// The point of B for what it has from C, of PW ID 100.
const POINT: [u8; 18] = [1, 4, 0, 0, 0, 100, 3, 4, 10, 0, 0, 2, 4, 4, 10, 0, 0, 3];

// What an end tells: raw Ethernet with a control word, MTU 1500 and this status.
fn told(rt: &impl Abort, status: u32) -> Told {
    Told {
        c: true,
        kind: 5,
        group: 0,
        mtu: Some(1500),
        vlan: None,
        vccv: None,
        description: Text::read(b"").expect(rt, "a text"),
        status: Some(PwStatus(status)),
        points: Points::empty(),
    }
}

// An end that is bound to this label and content, and tells nothing.
fn bound(label: Label, told: Told) -> PwEnd
    ensures { (end_of result).remote ≡ Some (record { label = label; told = told }) }
{
    PwEnd::Idle(PwIdle::new()).on_mapping(Binding { label, told })
}

// What a switching point passes on of what it is told by an edge after it on the path. It tells nothing to that edge then.
fn passed(rt: &impl Abort, told: Told, own: Addr, from: Addr) -> Told {
    holds(rt, told.points.len() < 3, "room for one point more");
    let mut stitch = Stitch::new();
    let before = stitch.replace(Side::After, bound(label(rt, 17), told));
    holds(rt, before.remote().is_none(), "nothing is told before");
    holds(
        rt,
        stitch.end(Side::After).remote().is_some(),
        "the edge after it tells",
    );
    holds(
        rt,
        stitch.wanted(Side::After, own, from, 100).is_none(),
        "tells it nothing",
    );
    stitch
        .wanted(Side::Before, own, from, 100)
        .expect(rt, "a content")
}

// The first point of a content has these octets.
fn is_behind(rt: &impl Abort, told: &Told, octets: &[u8]) {
    let mut out = [0u8; 18];
    let point = told.points.get(0).expect(rt, "a point");
    holds(rt, write_point(&point, &mut out) == 18, "18 octets");
    holds(rt, is_same(&out, octets), "the octets of the point");
}

// A switching point and the edge after it on the path, by which a content passes; and who accepts it then, and who does not.
type Pass = (Addr, Addr, &'static [(Addr, bool)]);

const ONE: [Pass; 1] = [(B, C, &[(A, true), (B, false), (C, true)])];

const THREE: [Pass; 3] = [
    (B, A, &[(C, true)]),
    (C, B, &[(D, true)]),
    (D, C, &[(A, false)]),
];

// These edges accept a content, or do not.
fn accept(rt: &impl Abort, told: &Told, edges: &[(Addr, bool)]) {
    for (edge, want) in edges {
        holds(rt, accepts(*edge, told) == *want, "accepted or not");
    }
}

// A content of this status that has passed by these switching points, each of which adds one point.
fn passed_by(rt: &impl Abort, status: u32, passes: &[Pass]) -> Told {
    let mut content = told(rt, status);
    for (own, from, edges) in passes {
        content = passed(rt, content, *own, *from);
        accept(rt, &content, edges);
    }
    holds(rt, content.points.len() == passes.len(), "a point of each");
    holds(rt, content.status == Some(PwStatus(status)), "the status");
    content
}

// The point that POINT is, and those of two other switching points.
const AT_B: Point = Point {
    pw_id: Some(100),
    local: Some(B),
    remote: Some(C),
};

const AT_A: Point = Point {
    local: Some(A),
    remote: None,
    ..AT_B
};

const AT_C: Point = Point {
    local: Some(C),
    ..AT_A
};

// The points of a content, and whether B accepts it.
const POINTS: [(&'static [Point], bool); 4] = [
    (&[AT_B], false),
    (&[AT_A, AT_B], false),
    (&[AT_A, AT_C], true),
    (&[AT_A, AT_C, AT_A], false),
];

// A content with these points.
fn behind(rt: &impl Abort, points: &[Point]) -> Told {
    let mut content = told(rt, 0);
    for point in points {
        if content.points.len() < 3 {
            content.points.add(*point);
        }
    }
    content
}

#[test]
fn accepts_two_other_points(rt: HostRuntime) {
    holds(&rt, read_point(&POINT) == Ok(AT_B), "the point of B");
    for (points, want) in POINTS.as_slice() {
        accept(&rt, &behind(&rt, points), &[(B, *want)]);
    }
}

#[test]
fn adds_its_point_once(rt: HostRuntime) {
    is_behind(&rt, &passed_by(&rt, 2, ONE.as_slice()), &POINT);
    passed_by(&rt, 0, THREE.as_slice());
}

// An end that advertises the one label, and is bound to the other with this status.
fn joined(rt: &impl Abort, own: u32, far: u32, status: u32) -> PwEnd {
    match bound(label(rt, far), told(rt, status)) {
        PwEnd::Idle(end) => PwEnd::Advertised(end.advertise(label(rt, own), told(rt, 0))),
        other => other,
    }
}

// A switching point that takes label 16 from before and label 20 from behind, and is bound to label 600 before and to 500 behind.
fn through(rt: &impl Abort) -> Stitch {
    let mut stitch = Stitch::new();
    drop(stitch.replace(Side::Before, joined(rt, 16, 600, 0)));
    drop(stitch.replace(Side::After, joined(rt, 20, 500, 0x20)));
    stitch
}

// The label and the TTL of a packet, and the side, the label and the TTL with which it goes on.
type Swap = (u32, u8, Result<(Side, u32, u8), SwapDrop>);

const SWAPS: [Swap; 6] = [
    (16, 2, Ok((Side::After, 500, 1))),
    (20, 2, Ok((Side::Before, 600, 1))),
    (20, 1, Err(SwapDrop::Expired)),
    (16, 255, Ok((Side::After, 500, 254))),
    (16, 254, Ok((Side::After, 500, 253))),
    (16, 253, Ok((Side::After, 500, 252))),
];

// The same where the end behind it is new.
const UNBOUND: [Swap; 1] = [(16, 1, Err(SwapDrop::NoBinding))];

// Whether a packet goes on like this.
fn goes_on(rt: &impl Abort, stitch: &Stitch, (number, ttl, want): Swap) -> bool {
    let label = label(rt, number);
    holds(rt, ttl >= 1, "a TTL");
    holds(rt, stitch.takes(label), "a label that is taken");
    match (stitch.swap(label, ttl), want) {
        (Ok(next), Ok(want)) => (next.side, next.label.number(), next.ttl) == want,
        (Err(cause), Err(want)) => cause == want,
        _ => false,
    }
}

// Packets go on like this, label 500 is not taken, and this status is to be passed on to the end before.
fn swaps(rt: &impl Abort, stitch: &Stitch, rows: &[Swap], status: u32) {
    for row in rows {
        holds(rt, goes_on(rt, stitch, *row), "goes on");
    }
    holds(
        rt,
        stitch.status_to_pass(Side::Before) == PwStatus(status),
        "the status",
    );
    holds(rt, !stitch.takes(label(rt, 500)), "label 500 is not taken");
}

const CAUSES: [(SwapDrop, DropCause); 2] = [
    (SwapDrop::NoBinding, DropCause::NoBinding),
    (SwapDrop::Expired, DropCause::Expired),
];

#[test]
fn passes_packets_both_ways(rt: HostRuntime) {
    let mut stitch = through(&rt);
    swaps(&rt, &stitch, SWAPS.as_slice(), 0x20);
    drop(stitch.replace(Side::After, PwEnd::Idle(PwIdle::new())));
    swaps(&rt, &stitch, UNBOUND.as_slice(), 0);
    for (swap, cause) in CAUSES.as_slice() {
        holds(&rt, swap.cause() == *cause, "the cause");
    }
}

#[test]
fn keeps_all_but_label_and_ttl(rt: HostRuntime) {
    let mut packet = [0x00, 0x01, 0x0f, 0xff, 0x12, 0x34];
    relabel(label(&rt, 500), 254, &mut packet);
    holds(
        &rt,
        is_same(&packet, &[0x00, 0x1f, 0x4f, 0xfe, 0x12, 0x34]),
        "label 500 and TTL 254",
    );
}

// Whether a content differs from one of status 0 in no more than its status.
fn differs(rt: &impl Abort, content: &Told, want: bool) {
    holds(
        rt,
        is_same_but_status(&told(rt, 0), content) != want,
        "differs or not",
    );
}

#[test]
fn tells_a_status_from_a_mapping(rt: HostRuntime) {
    let without_mtu = Told {
        mtu: None,
        ..told(&rt, 0)
    };
    differs(&rt, &told(&rt, 1), false);
    differs(&rt, &without_mtu, true);
    differs(&rt, &passed(&rt, told(&rt, 0), B, C), true);
}
