//! What the commands beside `replay` write of a run, and what is written where a limit or a fault ends it.

use crate::around::{ONE_EDGE, REPLAY, lines_play, plays};

// A broadcast enters at the first circuit.
const CAPTURED: &str = r#"
: words capture f c2
: front "frame c1 ffffffffffff0200000000010800"
= The broadcast leaves the circuit.
: octets d4c3b2a1020004000000000000000000ffff00000100000000000000000000000e0000000e000000ffffffffffff0200000000010800
= The times of a capture are the ticks before its frames.
: front "tick", "tick", "frame c1 ffffffffffff0200000000010800"
: octets d4c3b2a1020004000000000000000000ffff00000100000002000000000000000e0000000e000000ffffffffffff0200000000010800
= Nothing left the circuit at which the frame entered.
: words capture f c1
: octets d4c3b2a1020004000000000000000000ffff000001000000
"#;

// The tables of two edges, a mesh wire and a circuit at each.
const TWO: &str = r#"
: words tables f
: opening version = 1
events = [
: closing ]
: tables
[[edge]]
name = "a"
address = "10.0.0.1"
[[edge]]
name = "b"
address = "10.0.0.2"
[[service]]
name = "s"
[[circuit]]
name = "ca"
edge = "a"
service = "s"
[[circuit]]
name = "cb"
edge = "b"
service = "s"
[[wire]]
name = "w"
service = "s"
class = "mesh"
path = ["a", "b"]
pw_id = 100
"#;

// The third edge of the last row withdraws from the second one, which has not heard of it, the label that it told, and which is its own
// until it is released. The last edge knows of nothing.
const TABLED: &str = r#"
= What is told of a learned address ends with its tick.
: front "connect a b", "settle 20", "frame ca ffffffffffff0200000000010800", "flow 10"
: taken
edge a next=17
session b Operational
end w 0 b 16 16 up
mac s 020000000001 ca 0
edge b next=17
session a Operational
end w 0 a 16 16 up
mac s 020000000001 w 0

= No session.
: taken
edge a next=16
session b NonExistent
end w 0 b - - NoLocal
edge b next=16
session a NonExistent
end w 0 a - - NoLocal

= The third of four edges in a chain has lost its session with the last one.
: front "connect a b", "connect b c", "connect c d", "settle 100", "lose c d"
: tables
edge = [
  { name = "a", address = "10.0.0.1" },
  { name = "b", address = "10.0.0.2" },
  { name = "c", address = "10.0.0.3" },
  { name = "d", address = "10.0.0.4" },
]
service = [{ name = "s" }]
wire = [{ name = "w", service = "s", class = "mesh", pw_id = 100, path = ["a", "b", "c", "d"] }]
: taken
edge a next=17
session b Operational
end w 0 b 16 17 up
edge b next=18
session a Operational
session c Operational
end w 0 a 17 16 stitched
end w 1 c 16 17 stitched
edge c next=18
session b Operational
session d NonExistent
end w 1 b 17! 16 open
end w 2 d - - open
edge d next=17
session c Operational
end w 2 c 16 16 up

"#;

const REHEARSED: &str = "
= A rehearsal.
: words rehearse 1
: taken
rehearse 1
end events=8208 in=2000 left=4155 sent=5844 dropped=0

";

const UNTAKEN_CAPTURE: &str = r#"
= The first call of the sink fails, and nothing is taken.
: words capture f c2
: front "frame c1 ffffffffffff0200000000010800"
: sink 1
: told 4 vplsnet: write fault
"#;

const UNTAKEN_TABLES: &str = "
= The first call of the sink fails, and nothing is taken.
: sink 1
: told 4 vplsnet: write fault
";

const UNTAKEN_REHEARSAL: &str = "
= A sink that is full before its end.
: words rehearse 0
: room 5
: told 4 vplsnet: write fault
: taken
rehearse 0

";

const USAGE_ROWS: &str = "
    $ tables -> ! 2 vplsnet: usage
    $ tables f c1 -> ! 2 vplsnet: usage
    $ tables -f -> ! 2 vplsnet: usage
    $ capture f -> ! 2 vplsnet: usage
    $ capture f -c1 -> ! 2 vplsnet: usage
    $ capture f c1 c2 -> ! 2 vplsnet: usage
    $ rehearse -> ! 2 vplsnet: usage
    $ rehearse 01 -> ! 2 vplsnet: usage
    $ rehearse 18446744073709551616 -> ! 2 vplsnet: usage
    $ rehearse x -> ! 2 vplsnet: usage
";

// A circuit that is not there.
const NO_CIRCUITS: &str = r#"
: front "frame c1 ffffffffffff0200000000010800"
: entries 0
= A name of nothing.
: words capture f c4
: told 5 vplsnet: no circuit c4
= A name of an edge.
: words capture f e
: told 5 vplsnet: no circuit e
= The scenario's own fault comes first.
: words capture f c4
: front "jump"
: told 5 vplsnet: scenario: BadWord 1 1
"#;

// More frames than may be under way: a report is written, and of the other commands nothing.
const CROWDED_TABLES: &str = r#"
= One frame more than may be under way.
: front "connect a b", "settle 20"
: piece , "frame ca ffffffffffff0200000000010800"
: times 65537
: room 0
: told 7 vplsnet: stopped: Crowded 65536 65542
"#;

const CROWDED_CAPTURE: &str = r#"
= The same, of a capture.
: words capture f cb
: front "connect a b", "settle 20"
: piece , "frame ca ffffffffffff0200000000010800"
: times 65537
: room 0
: told 7 vplsnet: stopped: Crowded 65536 65542
"#;

// As many copies of one packet, and what is done behind them no more.
const COPIED: &str = r#"
: words tables f
: opening version = 1
events = [
: front "connect a b", "settle 20", "frame ca ffffffffffff0200000000010800"
: piece , "again 1"
: times 65535
: closing ]
: tables
[[edge]]
name = "a"
address = "10.0.0.1"
[[edge]]
name = "b"
address = "10.0.0.2"
[[service]]
name = "s"
[[circuit]]
name = "ca"
edge = "a"
service = "s"
[[circuit]]
name = "cb"
edge = "b"
service = "s"
[[wire]]
name = "w"
service = "s"
class = "mesh"
path = ["a", "b"]
pw_id = 100
: wires
vccv = 1
: room 0
"#;

const CROWDED_COPY: &str = r#"
= A further copy.
: back , "again 1"
: told 7 vplsnet: stopped: Crowded 65536 65542
"#;

const CROWDED_PING: &str = r#"
= A ping.
: back , "ping a w"
: told 7 vplsnet: stopped: Crowded 65536 65542
"#;

const CROWDED_ARRIVAL: &str = r#"
= An arrival.
: back , "arrive 1"
: told 7 vplsnet: stopped: Crowded 65536 65542
"#;

#[test]
fn writes_the_text_of_each_command(rt: HostRuntime) {
    let alloc = rt.alloc();
    plays(&rt, alloc, ONE_EDGE, CAPTURED);
    plays(&rt, alloc, TWO, TABLED);
    plays(&rt, alloc, REPLAY, REHEARSED);
}

#[test]
fn tells_a_fault_of_the_sink(rt: HostRuntime) {
    let alloc = rt.alloc();
    plays(&rt, alloc, ONE_EDGE, UNTAKEN_CAPTURE);
    plays(&rt, alloc, TWO, UNTAKEN_TABLES);
    plays(&rt, alloc, REPLAY, UNTAKEN_REHEARSAL);
}

#[test]
fn refuses_other_words_and_circuits(rt: HostRuntime) {
    lines_play(&rt, rt.alloc(), ONE_EDGE, USAGE_ROWS);
    plays(&rt, rt.alloc(), ONE_EDGE, NO_CIRCUITS);
}

#[test]
fn writes_no_tables_of_a_run_that_stopped(rt: HostRuntime) {
    plays(&rt, rt.alloc(), TWO, CROWDED_TABLES);
}

#[test]
fn writes_no_capture_of_a_run_that_stopped(rt: HostRuntime) {
    plays(&rt, rt.alloc(), TWO, CROWDED_CAPTURE);
}

#[test]
fn copies_no_packet_of_a_crowded_network(rt: HostRuntime) {
    plays(&rt, rt.alloc(), COPIED, CROWDED_COPY);
}

#[test]
fn pings_nobody_in_a_crowded_network(rt: HostRuntime) {
    plays(&rt, rt.alloc(), COPIED, CROWDED_PING);
}

#[test]
fn lets_nothing_arrive_in_a_crowded_network(rt: HostRuntime) {
    plays(&rt, rt.alloc(), COPIED, CROWDED_ARRIVAL);
}
