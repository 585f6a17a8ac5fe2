//! What no clause says: that the lines are those of the format, on a plan of two edges, a circuit and a wire.

use crate::words::{holds, is_same};
use net_base::{
    Arrival, CircuitId, Down, DropCause, EdgeId, Entry, Event, List, MemSink, Octets, Plan, Reason,
    StateName, Trace, WireId,
};
use report_text::{Ending, put_report};
use scenario_text::read_scenario;
use std::alloc::Global;
use std::process::Abort;
use text_lines::Page;

const A: EdgeId = EdgeId(0);

const B: EdgeId = EdgeId(1);

const CA: CircuitId = CircuitId(0);

const W: WireId = WireId(0);

// Two edges, a circuit and a wire.
const PLAN: &str = r#"
version = 1
edge = [{ name = "a", address = "10.0.0.1" }, { name = "b_2", address = "10.0.0.2" }]
service = [{ name = "s" }]
circuit = [{ name = "ca", edge = "a", service = "s" }]
wire = [{ name = "w", service = "s", class = "mesh", path = ["a", "b_2"], pw_id = 1 }]
"#;

fn add(rt: &impl Abort, trace: &mut Trace, entry: Entry) {
    trace.push(entry).expect(rt, "memory");
}

fn tell(rt: &impl Abort, trace: &mut Trace, event: Event) {
    add(rt, trace, Entry::Did { event });
}

fn octets(rt: &impl Abort, alloc: Global, octets: &[u8]) -> Octets {
    List::from_bytes(alloc, octets).expect(rt, "memory")
}

fn events(rt: &impl Abort, alloc: Global, trace: &mut Trace) {
    let bytes = octets(rt, alloc, &[0, 9, 10, 159, 255]);
    tell(rt, trace, Event::Connect { from: A, to: B });
    tell(
        rt,
        trace,
        Event::Deliver {
            from: B,
            to: A,
            count: 65535,
        },
    );
    tell(rt, trace, Event::Lose { edge: A, peer: B });
    tell(rt, trace, Event::Restart { edge: B });
    tell(rt, trace, Event::Tick);
    tell(rt, trace, Event::Frame { circuit: CA, bytes });
    tell(rt, trace, Event::Arrive { packet: 7 });
    tell(rt, trace, Event::Discard { packet: u64::MAX });
    tell(rt, trace, Event::Again { packet: 10 });
}

fn events_of_wires(rt: &impl Abort, trace: &mut Trace) {
    tell(
        rt,
        trace,
        Event::Wire {
            edge: A,
            wire: W,
            on: true,
        },
    );
    tell(
        rt,
        trace,
        Event::Circuit {
            circuit: CA,
            on: false,
        },
    );
    tell(
        rt,
        trace,
        Event::Status {
            edge: B,
            wire: W,
            bits: 31,
        },
    );
    tell(
        rt,
        trace,
        Event::Priority {
            edge: A,
            wire: W,
            priority: 255,
        },
    );
    tell(rt, trace, Event::Ping { edge: A, wire: W });
}

fn entries_of_packets(rt: &impl Abort, alloc: Global, trace: &mut Trace) {
    add(
        rt,
        trace,
        Entry::Sent {
            packet: 2,
            from: A,
            to: B,
            wire: W,
            arrival: Arrival::Circuit(CA),
            origin: 3,
            hops: 4,
            bytes: octets(rt, alloc, &[0x1b]),
        },
    );
    add(
        rt,
        trace,
        Entry::Sent {
            packet: 5,
            from: B,
            to: A,
            wire: W,
            arrival: Arrival::Own,
            origin: 0,
            hops: 1,
            bytes: octets(rt, alloc, &[0xc0]),
        },
    );
    add(rt, trace, Entry::Copied { packet: 6, of: 2 });
}

fn entries_of_frames(rt: &impl Abort, alloc: Global, trace: &mut Trace) {
    add(
        rt,
        trace,
        Entry::In {
            circuit: CA,
            number: 1,
            bytes: List::new(alloc),
        },
    );
    entries_of_packets(rt, alloc, trace);
    add(
        rt,
        trace,
        Entry::Left {
            circuit: CircuitId(9),
            origin: 7,
            hops: 8,
            bytes: octets(rt, alloc, &[0xfe]),
        },
    );
    add(
        rt,
        trace,
        Entry::Dropped {
            edge: B,
            origin: 1,
            cause: DropCause::NoLabel,
        },
    );
}

fn entries_of_wires(rt: &impl Abort, trace: &mut Trace) {
    add(
        rt,
        trace,
        Entry::Wire {
            edge: A,
            wire: W,
            down: None,
        },
    );
    add(
        rt,
        trace,
        Entry::Wire {
            edge: B,
            wire: W,
            down: Some(Down::NoRemote),
        },
    );
    add(
        rt,
        trace,
        Entry::Pong {
            edge: A,
            wire: W,
            sequence: 513,
        },
    );
}

fn entries_of_sessions(rt: &impl Abort, alloc: Global, trace: &mut Trace) {
    add(rt, trace, Entry::Idle);
    add(
        rt,
        trace,
        Entry::Said {
            from: A,
            to: B,
            bytes: octets(rt, alloc, &[0, 1]),
        },
    );
    add(
        rt,
        trace,
        Entry::Session {
            edge: A,
            peer: B,
            state: StateName::OpenSent,
        },
    );
    add(
        rt,
        trace,
        Entry::Session {
            edge: B,
            peer: A,
            state: StateName::Ended(Reason::PeerFatal),
        },
    );
    entries_of_wires(rt, trace);
}

// The report of a trace that ended so is this text.
fn tells(rt: &impl Abort, alloc: Global, plan: &Plan, trace: &Trace, ending: Ending, text: &str) {
    let mut sink = MemSink::new(alloc, 65_536, List::new(alloc)).expect(rt, "memory");
    let mut page = Page::new(alloc).expect(rt, "memory");
    put_report(&mut page, &mut sink, plan, trace.as_slice(), ending).expect(rt, "a sound sink");
    page.flush(&mut sink).expect(rt, "a sound sink");
    holds(rt, is_same(sink.taken(), text.as_bytes()), text);
}

// The same in the plan.
fn reports(rt: &impl Abort, alloc: Global, trace: &Trace, ending: Ending, text: &str) {
    let plan = read_scenario(alloc, PLAN.as_bytes())
        .expect(rt, "a scenario")
        .plan;
    tells(rt, alloc, &plan, trace, ending, text);
}

const EVENTS: &str =
    "vplsnet 1\n> connect a b_2\n> deliver b_2 a 65535\n> lose a b_2\n> restart b_2\n> tick\n> frame ca 00090a9fff\n> arrive 7\n> drop 18446744073709551615\n> again 10\nend events=9 in=0 left=0 sent=0 dropped=0\n";

const EVENTS_OF_WIRES: &str =
    "vplsnet 1\n> wire a w on\n> circuit ca off\n> status b_2 w 31\n> priority a w 255\n> ping a w\nstop Crowded 1000001\n";

#[test]
fn events_as_the_format_writes_them(rt: HostRuntime) {
    let alloc = rt.alloc();
    let mut trace = List::new(alloc);
    events(&rt, alloc, &mut trace);
    reports(&rt, alloc, &trace, Ending::End, EVENTS);
    let mut trace = List::new(alloc);
    events_of_wires(&rt, &mut trace);
    let crowded = Ending::Crowded { count: 1_000_001 };
    reports(&rt, alloc, &trace, crowded, EVENTS_OF_WIRES);
}

const ENTRIES_OF_FRAMES: &str =
    "vplsnet 1\nin ca 1 \nsent 2 a b_2 w ca 3 4 1b\nsent 5 b_2 a w - 0 1 c0\ncopied 6 2\nleft  7 8 fe\ndropped b_2 1 NoLabel\nend events=0 in=1 left=1 sent=2 dropped=1\n";

const ENTRIES_OF_SESSIONS: &str =
    "vplsnet 1\nidle\nsaid a b_2 0001\nsession a b_2 OpenSent\nsession b_2 a Ended:PeerFatal\nwire a w up\nwire b_2 w NoRemote\npong a w 513\nstop TooMuch 268435457\n";

#[test]
fn entries_as_the_format_writes_them(rt: HostRuntime) {
    let alloc = rt.alloc();
    let mut trace = List::new(alloc);
    entries_of_frames(&rt, alloc, &mut trace);
    reports(&rt, alloc, &trace, Ending::End, ENTRIES_OF_FRAMES);
    let mut trace = List::new(alloc);
    entries_of_sessions(&rt, alloc, &mut trace);
    let much = Ending::TooMuch {
        weight: 268_435_457,
    };
    reports(&rt, alloc, &trace, much, ENTRIES_OF_SESSIONS);
}
