//! Whole replays of one edge, and how a call ends that is not done.

use crate::around::{lines_play, plays, plays_in, section};

// A replay over one edge and three circuits of a service, whose events follow.
const TABLED: &str = r#"
: words replay f
: opening version = 1

: tables
[[edge]]
name = "e"
address = "10.0.0.1"
[[service]]
name = "s"
[[circuit]]
name = "c1"
edge = "e"
service = "s"
[[circuit]]
name = "c2"
edge = "e"
service = "s"
[[circuit]]
name = "c3"
edge = "e"
service = "s"
"#;

const DONE: &str = "
= No events.
: taken
vplsnet 1
end events=0 in=0 left=0 sent=0 dropped=0

";

// The replay of a broadcast in an outside of which a call fails. The file is read by two calls, and the report is taken by one.
const FAILING: &str = r#"
: front events = ["frame c1 ffffffffffff0200000000010800"]
: taken
vplsnet 1
> frame c1 ffffffffffff0200000000010800
in c1 1 ffffffffffff0200000000010800
left c2 1 0 ffffffffffff0200000000010800
left c3 1 0 ffffffffffff0200000000010800
end events=1 in=1 left=2 sent=0 dropped=0

= No call fails.
: entries 4
= The first call of the shelf fails.
: shelf 1
: room 1000
: told 3 vplsnet: read fault
: taken

= The second call of the shelf fails.
: shelf 2
: room 1000
: told 3 vplsnet: read fault
: taken

= The third call of the shelf would fail.
: shelf 3
: room 1000
: entries 4
= The first call of the sink fails.
: sink 1
: room 1000
: entries 4
: told 4 vplsnet: write fault
: taken

= The same where there is more room.
: sink 1
: told 4 vplsnet: write fault
: taken

= The second call of the sink would fail.
: sink 2
: room 1000
: entries 4
= The file is not there.
: words replay g
: told 3 vplsnet: read fault
: taken

"#;

// The same into a sink that is full before its end.
const FULL: &str = r#"
: front events = ["frame c1 ffffffffffff0200000000010800"]
: taken
vplsnet 1
> frame c1 ffffffffffff0200000000010800
in c1 1 ffffffffffff0200000000010800
left c2 1 0 ffffffffffff0200000000010800
left c3 1 0 ffffffffffff0200000000010800
end events=1 in=1 left=2 sent=0 dropped=0

: told 4 vplsnet: write fault
"#;

const USAGE_ROWS: &str = "
    $  -> ! 2 vplsnet: usage
    $ replay -> ! 2 vplsnet: usage
    $ replay f f -> ! 2 vplsnet: usage
    $ replay -f -> ! 2 vplsnet: usage
    $ report f -> ! 2 vplsnet: usage
";

const REFUSED_ROWS: &str = r#"
    events = 1 -> ! 5 vplsnet: scenario: WrongKind top 0 events
    events = -> ! 5 vplsnet: scenario: NotToml
    events = ["frame c1 ffffffffffff020000000001080g"] -> ! 5 vplsnet: scenario: BadWord 1 3
    events = ["tick", "tick", "tick", "tick", "tick", "tick", "jump a"] -> ! 5 vplsnet: scenario: BadWord 7 1
    "no key" = 1 -> ! 5 vplsnet: scenario: UnknownKey top 0 no?key
"#;

const REPEATED: &str = r#"
= A name that is repeated.
: front [[circuit]]
name = "c2"
edge = "e"
service = "s"
: told 5 vplsnet: scenario: Plan RepeatedName circuit 3 name
"#;

// A file of 8,388,608 octets.
const LONGEST: &str = "
: words replay f
: piece ================================================================
: times 131072
";

const LENGTHS: &str = "
= As long as may be.
: told 5 vplsnet: scenario: NotToml
= An octet more.
: back =
: told 5 vplsnet: f is longer than 8388608
";

#[test]
fn ends_with_a_status_and_a_line(rt: HostRuntime) {
    let alloc = rt.alloc();
    plays(&rt, alloc, TABLED, DONE);
    plays(&rt, alloc, TABLED, FAILING);
    lines_play(&rt, alloc, TABLED, USAGE_ROWS);
    lines_play(&rt, alloc, TABLED, REFUSED_ROWS);
    plays(&rt, alloc, TABLED, REPEATED);
    plays(&rt, alloc, LONGEST, LENGTHS);
}

#[test]
fn stops_where_the_sink_is_full(rt: HostRuntime) {
    let report = section(FULL, "\n: taken\n").expect(&rt, "a report");
    for room in 0..report.len() {
        plays_in(&rt, rt.alloc(), TABLED, FULL, room);
    }
}
