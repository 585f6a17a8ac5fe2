//! What two edges tell each other of a wire, row by row.

use crate::independent::pair::{
    End, calls_so, connected, end_of, has_told, hear, lost, run, set, uses,
};
use crate::octets::{is_same, octets_of};
use crate::scenarios::{A, B, SHORT_AND_LONG, SITES};
use independent_mode::{IndepStop, Wish};
use ldp_stream::StreamFault;
use std::alloc::Global;
use std::process::Abort;

const FIRST: &[u8] =
    b"\x00\x01\x00\x34\x0a\x00\x00\x01\x00\x00\x00\x01\x00\x2a\x00\x00\x00\x01\x03\x00\x00\x0a\x00\x00\x00\x28\x00\x00\x00\x00\x00\x00\x89\x6a\x00\x04\x00\x00\x00\x20\x01\x00\x00\x0c\x80\x80\x05\x04\x00\x00\x00\x00\x00\x00\x00\x64";

// Steps of two ends, and behind `= ` the statuses that each of them has told then, and whether both use the wire or none does. Lines that
// end in a full stop are words for a reader.
const ROWS: &str = "
    One end asks, in pieces of each size.
    connect, settle 1, A asks, settle 1 = 204000 2000 used
    connect, settle 37, A asks, settle 37 = 204000 2000 used
    connect, settle 56, A asks, settle 56 = 204000 2000 used
    connect, settle 4096, A asks, settle 4096 = 204000 2000 used
    Both ask, and their requests cross.
    connect, settle 56, A asks, B asks, settle 56 = 204000 204000 used
    An active end is asked.
    connect, B active, settle 56, A asks, settle 56 = 204000 200000 used
    An end that was asked stands by.
    connect, settle 56, A asks, B hears 56, B standby, settle 56 = 204000 200020 unused
    An end that has asked stands by.
    connect, settle 56, A asks, A standby, settle 56 = 204020 2000 unused
    A request is cut in its middle.
    connect, settle 56, A asks, B hears 30, lose, connect, settle 56 = 20404000 202000 used
    An answer is cut in its middle.
    connect, settle 56, A asks, B hears 56, A hears 30, lose, connect, settle 56 = 20404000 20000000 used
    Nothing is known over a loss.
    connect, A asks, settle 56, lose = 204000 2000 unused
";

// Whether an end has told these statuses, and uses the wire or does not.
fn stands(rt: &impl Abort, alloc: Global, end: &End, told: &str, used: bool) -> bool {
    let statuses = octets_of(rt, alloc, told);
    has_told(end, statuses.as_slice()) && uses(rt, end) == used
}

// Two ends do the steps of a row, and come to what it says of them.
fn come_to(rt: &impl Abort, alloc: Global, a: &mut End, b: &mut End, row: (&str, &str)) {
    let (steps, words) = row;
    run(rt, alloc, a, b, steps);
    let (of_a, more) = words.split_once(' ').expect(rt, "two words");
    let (of_b, used) = more.split_once(' ').expect(rt, "two words");
    let used = is_same(used.as_bytes(), b"used");
    assert!(rt;
        stands(rt, alloc, a, of_a, used) && stands(rt, alloc, b, of_b, used),
        "{steps}"
    );
}

// The first octets that an end puts are these.
fn put_first(rt: &impl Abort, alloc: Global, end: &mut End, octets: &[u8]) {
    connected(rt, alloc, end, B).expect(rt, "connected");
    let first = end.link.calls().get(0).expect(rt, "a call");
    assert!(rt; is_same(first.bytes.as_slice(), octets));
}

// The first put of an end fails: the statuses that it has told are those of its calls, the failed one among them.
fn fail_to_connect(rt: &impl Abort, alloc: Global, b: &mut End) {
    assert!(rt; connected(rt, alloc, b, A) == Err(IndepStop::Link));
    assert!(rt; b.edge.is_connected(A));
    assert!(rt; has_told(b, b"\x20"));
    lost(rt, b, A);
    assert!(rt; !b.edge.is_connected(A));
    connected(rt, alloc, b, A).expect(rt, "connected");
    assert!(rt; has_told(b, b"\x20\x20"));
}

// The second put of an end fails, by which it asks.
fn fail_to_ask(rt: &impl Abort, alloc: Global, a: &mut End, b: &mut End) {
    run(rt, alloc, a, b, "connect, settle 56");
    assert!(rt; set(rt, alloc, b, Wish::Ask) == Err(IndepStop::Link));
    assert!(rt; calls_so(rt, b, Wish::Ask));
    assert!(rt; has_told(b, b"\x20\x40"));
}

// The second put of an end fails, by which it answers.
fn fail_to_answer(rt: &impl Abort, alloc: Global, a: &mut End, b: &mut End) {
    run(rt, alloc, a, b, "connect, settle 56, A asks");
    let octets = a.link.calls().get(1).expect(rt, "a call").bytes.as_slice();
    assert!(rt; hear(rt, alloc, b, A, octets) == Err(IndepStop::Link));
    assert!(rt; b.edge.is_connected(A) && uses(rt, b));
    lost(rt, b, A);
    assert!(rt; !b.edge.is_connected(A) && !uses(rt, b));
    assert!(rt; calls_so(rt, b, Wish::Active));
}

// Octets that are no PDUs are refused at a place, at each call from then on, and no more once the connection was lost.
fn refuse(rt: &impl Abort, alloc: Global, a: &mut End, fault: (&[u8], &[u8], u64)) {
    let (whole, wrong, place) = fault;
    connected(rt, alloc, a, B).expect(rt, "connected");
    hear(rt, alloc, a, B, whole).expect(rt, "heard");
    let first = hear(rt, alloc, a, B, wrong);
    match first {
        Err(IndepStop::Refused(StreamFault::Refused { base, .. })) => assert!(rt; base == place),
        _ => assert!(rt; false),
    }
    assert!(rt; hear(rt, alloc, a, B, b"\x00") == first);
    lost(rt, a, B);
    connected(rt, alloc, a, B).expect(rt, "connected");
    hear(rt, alloc, a, B, b"\x00").expect(rt, "heard");
}

// Notifications of the second edge, whose octets are put together by hand (RFC 5036 section 3.5.1, RFC 8077 section 6.3.2). The first four
// tell the status of no wire of two edges.

// Of other status data than 0x28.
const OTHER_DATUM: &[u8] =
    b"\x00\x01\x00\x34\x0a\x00\x00\x02\x00\x00\x00\x01\x00\x2a\x00\x00\x00\x01\x03\x00\x00\x0a\x00\x00\x00\x2c\x00\x00\x00\x00\x00\x00\x89\x6a\x00\x04\x00\x00\x00\x00\x01\x00\x00\x0c\x80\x80\x05\x04\x00\x00\x00\x00\x00\x00\x00\x64";

// Without a FEC.
const NO_FEC: &[u8] =
    b"\x00\x01\x00\x24\x0a\x00\x00\x02\x00\x00\x00\x01\x00\x1a\x00\x00\x00\x01\x03\x00\x00\x0a\x00\x00\x00\x28\x00\x00\x00\x00\x00\x00\x89\x6a\x00\x04\x00\x00\x00\x00";

// With the FEC of a group, which has no PW ID.
const NO_PW_ID: &[u8] =
    b"\x00\x01\x00\x30\x0a\x00\x00\x02\x00\x00\x00\x01\x00\x26\x00\x00\x00\x01\x03\x00\x00\x0a\x00\x00\x00\x28\x00\x00\x00\x00\x00\x00\x89\x6a\x00\x04\x00\x00\x00\x00\x01\x00\x00\x08\x80\x80\x05\x00\x00\x00\x00\x00";

// Of the wire over three edges.
const LONG_WIRE: &[u8] =
    b"\x00\x01\x00\x34\x0a\x00\x00\x02\x00\x00\x00\x01\x00\x2a\x00\x00\x00\x01\x03\x00\x00\x0a\x00\x00\x00\x28\x00\x00\x00\x00\x00\x00\x89\x6a\x00\x04\x00\x00\x00\x00\x01\x00\x00\x0c\x80\x80\x05\x04\x00\x00\x00\x00\x00\x00\x00\x65";

// Two in one PDU: the other end asks, and is active.
const ASKS_THEN_ACTIVE: &[u8] =
    b"\x00\x01\x00\x62\x0a\x00\x00\x02\x00\x00\x00\x01\x00\x2a\x00\x00\x00\x02\x03\x00\x00\x0a\x00\x00\x00\x28\x00\x00\x00\x00\x00\x00\x89\x6a\x00\x04\x00\x00\x00\x40\x01\x00\x00\x0c\x80\x80\x05\x04\x00\x00\x00\x00\x00\x00\x00\x64\x00\x01\x00\x2a\x00\x00\x00\x03\x03\x00\x00\x0a\x00\x00\x00\x28\x00\x00\x00\x00\x00\x00\x89\x6a\x00\x04\x00\x00\x00\x00\x01\x00\x00\x0c\x80\x80\x05\x04\x00\x00\x00\x00\x00\x00\x00\x64";

// Two in one PDU: the other end is active, and stands by.
const ACTIVE_THEN_STANDBY: &[u8] =
    b"\x00\x01\x00\x62\x0a\x00\x00\x02\x00\x00\x00\x01\x00\x2a\x00\x00\x00\x04\x03\x00\x00\x0a\x00\x00\x00\x28\x00\x00\x00\x00\x00\x00\x89\x6a\x00\x04\x00\x00\x00\x00\x01\x00\x00\x0c\x80\x80\x05\x04\x00\x00\x00\x00\x00\x00\x00\x64\x00\x01\x00\x2a\x00\x00\x00\x05\x03\x00\x00\x0a\x00\x00\x00\x28\x00\x00\x00\x00\x00\x00\x89\x6a\x00\x04\x00\x00\x00\x20\x01\x00\x00\x0c\x80\x80\x05\x04\x00\x00\x00\x00\x00\x00\x00\x64";

// Octets of the second edge that change nothing.
fn ignores(rt: &impl Abort, alloc: Global, end: &mut End, octets: &[u8]) {
    hear(rt, alloc, end, B, octets).expect(rt, "heard");
    assert!(rt; !uses(rt, end));
    assert!(rt; has_told(end, b"\x20\x00"));
}

// The first end connects, and is active.
fn be_active(rt: &impl Abort, alloc: Global, a: &mut End) {
    connected(rt, alloc, a, B).expect(rt, "connected");
    assert!(rt; set(rt, alloc, a, Wish::Active).expect(rt, "set"));
}

// What tells no status of a wire is ignored.
fn ignore(rt: &impl Abort, alloc: Global, a: &mut End) {
    be_active(rt, alloc, a);
    ignores(rt, alloc, a, OTHER_DATUM);
    ignores(rt, alloc, a, NO_FEC);
    ignores(rt, alloc, a, NO_PW_ID);
    ignores(rt, alloc, a, LONG_WIRE);
}

// The request is answered, the status behind it is not, and is what is known.
fn take_two_messages(rt: &impl Abort, alloc: Global, a: &mut End) {
    be_active(rt, alloc, a);
    hear(rt, alloc, a, B, ASKS_THEN_ACTIVE).expect(rt, "heard");
    assert!(rt; has_told(a, b"\x20\x00\x00"));
    assert!(rt; uses(rt, a));
    hear(rt, alloc, a, B, ACTIVE_THEN_STANDBY).expect(rt, "heard");
    assert!(rt; has_told(a, b"\x20\x00\x00"));
    assert!(rt; !uses(rt, a));
}

// What two ends have to do, from the beginning.
#[derive(Clone, Copy)]
enum Deed<'a> {
    ComeTo(&'a str, &'a str),
    PutFirst,
    FailToConnect,
    FailToAsk,
    FailToAnswer,
    Refuse(&'a [u8], &'a [u8], u64),
    Ignore,
    TakeTwoMessages,
}

// A scenario, which call of the second end's link fails (none for 0), and what both ends do.
type Scene<'a> = (&'a [&'a str], u64, Deed<'a>);

// Two ends do a deed.
fn act(rt: &impl Abort, alloc: Global, a: &mut End, b: &mut End, deed: Deed<'_>) {
    match deed {
        Deed::ComeTo(steps, words) => come_to(rt, alloc, a, b, (steps, words)),
        Deed::PutFirst => put_first(rt, alloc, a, FIRST),
        Deed::FailToConnect => fail_to_connect(rt, alloc, b),
        Deed::FailToAsk => fail_to_ask(rt, alloc, a, b),
        Deed::FailToAnswer => fail_to_answer(rt, alloc, a, b),
        Deed::Refuse(whole, wrong, place) => refuse(rt, alloc, a, (whole, wrong, place)),
        Deed::Ignore => ignore(rt, alloc, a),
        Deed::TakeTwoMessages => take_two_messages(rt, alloc, a),
    }
}

// The first end meets the second one.
fn meets(rt: &impl Abort, alloc: Global, a: &mut End, scene: Scene<'_>) {
    let (pieces, fails, deed) = scene;
    let mut b = end_of(rt, alloc, pieces, B, fails);
    act(rt, alloc, a, &mut b, deed);
    drop(b);
}

// Two ends play a scene. Each is held by a function of its own: to let two go in one would take long to prove.
fn plays(rt: &impl Abort, alloc: Global, scene: Scene<'_>) {
    let mut a = end_of(rt, alloc, scene.0, A, 0);
    meets(rt, alloc, &mut a, scene);
    drop(a);
}

// A line is empty, words for a reader, or a row to which two ends come.
#[test]
fn two_ends_tell_each_other_of_a_wire(rt: HostRuntime) {
    for line in ROWS.lines() {
        let line = line.trim();
        match line.split_once(" = ") {
            Some((steps, words)) => plays(&rt, rt.alloc(), (SITES, 0, Deed::ComeTo(steps, words))),
            None => assert!(&rt; line.is_empty() || line.ends_with('.'), "{line}"),
        }
    }
}

#[test]
fn the_first_octets(rt: HostRuntime) {
    plays(&rt, rt.alloc(), (SITES, 0, Deed::PutFirst));
}

#[test]
fn the_first_put_fails(rt: HostRuntime) {
    plays(&rt, rt.alloc(), (SITES, 1, Deed::FailToConnect));
}

#[test]
fn the_put_of_a_set_fails(rt: HostRuntime) {
    plays(&rt, rt.alloc(), (SITES, 2, Deed::FailToAsk));
}

#[test]
fn the_put_of_an_answer_fails(rt: HostRuntime) {
    plays(&rt, rt.alloc(), (SITES, 2, Deed::FailToAnswer));
}

// What is refused: octets before it, octets that are no PDU, and the place of these.
const REFUSED: [Scene<'static>; 4] = [
    (SITES, 0, Deed::Refuse(b"", b"\x00\x01\x00\x0d", 0)),
    (SITES, 0, Deed::Refuse(b"", b"\x00\x02\x00\x34", 0)),
    (SITES, 0, Deed::Refuse(b"", b"\x00\x01\xff\xff", 0)),
    (SITES, 0, Deed::Refuse(FIRST, b"\x00\x02\x00\x34", 56)),
];

#[test]
fn faults_of_the_stream(rt: HostRuntime) {
    for scene in REFUSED.iter() {
        plays(&rt, rt.alloc(), *scene);
    }
}

#[test]
fn what_tells_no_status_of_a_wire_is_ignored(rt: HostRuntime) {
    plays(&rt, rt.alloc(), (SHORT_AND_LONG, 0, Deed::Ignore));
}

#[test]
fn two_messages_in_one_pdu(rt: HostRuntime) {
    plays(&rt, rt.alloc(), (SHORT_AND_LONG, 0, Deed::TakeTwoMessages));
}
