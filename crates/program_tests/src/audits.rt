//! The command `audit`: reports in which one thing is wrong each, and what is refused before.

use crate::around::{lines_play, plays};

// An edge with two circuits of one service and one of another, and a report that meets all rules. The events of the scenario are others,
// and it plays a capture that is not there.
const AUDIT: &str = r#"
: words audit f s
: opening version = 2
events = ["tick", "play c1 k"
: closing ]
: tables
edge = [{ name = "a", address = "10.0.0.1" }]
service = [{ name = "s" }, { name = "t" }]
[[circuit]]
name = "c1"
edge = "a"
service = "s"
[[circuit]]
name = "c2"
edge = "a"
service = "t"
[[circuit]]
name = "c3"
edge = "a"
service = "s"
: s
vplsnet 1
> frame c1 ffffffffffff02000000000188b5aa
in c1 1 ffffffffffff02000000000188b5aa
left c3 1 0 ffffffffffff02000000000188b5aa
end events=1 in=1 left=1 sent=0 dropped=0

: entries 0
"#;

const GOOD: &str = "
: taken
audit yes

= A report that meets all rules.
= No events.
: s
vplsnet 1
end events=0 in=0 left=0 sent=0 dropped=0

= A run that a limit stopped.
: s
vplsnet 1
stop Crowded 65536

";

// Two core edges and a spoke edge with a spoke to each, and a circuit at the spoke edge and at one core edge.
const SPOKES: &str = r#"
: words audit f s
: opening version = 2
events = [
: closing ]
: tables
edge = [{ name = "a", address = "10.0.0.1" }, { name = "b", address = "10.0.0.2" }, { name = "x", address = "10.0.0.3" }]
service = [{ name = "s" }]
circuit = [{ name = "cx", edge = "x", service = "s" }, { name = "ca", edge = "a", service = "s" }]
[[wire]]
name = "m"
service = "s"
class = "mesh"
path = ["a", "b"]
pw_id = 1
[[wire]]
name = "u"
service = "s"
class = "spoke"
path = ["x", "a"]
pw_id = 2
[[wire]]
name = "v"
service = "s"
class = "spoke"
path = ["x", "b"]
pw_id = 3
: entries 0
"#;

const BOTH_SPOKES: &str = "
= Both spokes of the spoke edge carry frames, so the service is not calm, and a frame need not leave anywhere.
: s
vplsnet 1
> connect a b
session a b Initialized
session b a Initialized
wire a m up
wire b m up
> connect x a
session x a Initialized
session a x Initialized
wire x u up
wire a u up
> connect x b
session x b Initialized
session b x Initialized
wire x v up
wire b v up
> frame cx ffffffffffff02000000000188b5aa
in cx 1 ffffffffffff02000000000188b5aa
end events=4 in=1 left=0 sent=0 dropped=0

: taken
audit yes

";

const ONE_SPOKE: &str = "
= One spoke of the spoke edge carries frames, so the service is calm, and a frame has to leave the other circuit.
: s
vplsnet 1
> connect a b
session a b Initialized
session b a Initialized
wire a m up
wire b m up
> connect x a
session x a Initialized
session a x Initialized
wire x u up
wire a u up
> connect x b
session x b Initialized
session b x Initialized
wire x v up
> frame cx ffffffffffff02000000000188b5aa
in cx 1 ffffffffffff02000000000188b5aa
end events=4 in=1 left=0 sent=0 dropped=0

: told 6 vplsnet: audit: 17 Once
";

// No report of this plan.
const FORMLESS: &str = "
= A text without a line.
: s

: told 6 vplsnet: audit: 1 Form
= A circuit that the plan lacks.
: s
vplsnet 1
> frame c4 ffffffffffff02000000000188b5aa
end events=1 in=0 left=0 sent=0 dropped=0

: told 6 vplsnet: audit: 2 Form
= A wrong count.
: s
vplsnet 1
> frame c1 ffffffffffff02000000000188b5aa
in c1 1 ffffffffffff02000000000188b5aa
left c3 1 0 ffffffffffff02000000000188b5aa
end events=1 in=1 left=2 sent=0 dropped=0

: told 6 vplsnet: audit: 5 Form
= The form is judged first: a frame leaves a circuit of the other service, and the last line is none.
: s
vplsnet 1
> frame c1 ffffffffffff02000000000188b5aa
in c1 1 ffffffffffff02000000000188b5aa
left c2 1 0 ffffffffffff02000000000188b5aa

: told 6 vplsnet: audit: 5 Form
";

// A rule fails.
const BROKEN: &str = r#"
= A frame leaves a circuit of the other service, and not that of its own.
: s
vplsnet 1
> frame c1 ffffffffffff02000000000188b5aa
in c1 1 ffffffffffff02000000000188b5aa
left c2 1 0 ffffffffffff02000000000188b5aa
end events=1 in=1 left=1 sent=0 dropped=0

: told 6 vplsnet: audit: 4 Isolated
= The edge in the middle sends what came by one mesh wire out by the other one.
: opening version = 2
events = [
: tables
edge = [{ name = "a", address = "10.0.0.1" }, { name = "b", address = "10.0.0.2" }, { name = "c", address = "10.0.0.3" }]
service = [{ name = "s" }]
[[wire]]
name = "u"
service = "s"
class = "mesh"
path = ["a", "b"]
pw_id = 1
[[wire]]
name = "v"
service = "s"
class = "mesh"
path = ["b", "c"]
pw_id = 2
: s
vplsnet 1
> arrive 1
sent 2 b c v u 1 2 000101ff00000000
end events=1 in=0 left=0 sent=1 dropped=0

: told 6 vplsnet: audit: 3 Split
= A flooded frame does not leave the other circuit of its service.
: s
vplsnet 1
> frame c1 ffffffffffff02000000000188b5aa
in c1 1 ffffffffffff02000000000188b5aa
end events=1 in=1 left=0 sent=0 dropped=0

: told 6 vplsnet: audit: 3 Once
= It leaves it twice.
: s
vplsnet 1
> tick
> frame c1 ffffffffffff02000000000188b5aa
in c1 1 ffffffffffff02000000000188b5aa
left c3 1 0 ffffffffffff02000000000188b5aa
left c3 1 0 ffffffffffff02000000000188b5aa
end events=2 in=1 left=2 sent=0 dropped=0

: told 6 vplsnet: audit: 4 Once
"#;

const USAGE_ROWS: &str = "
    $ audit f -> ! 2 vplsnet: usage
    $ audit f s s -> ! 2 vplsnet: usage
    $ audit f -s -> ! 2 vplsnet: usage
";

// The scenario is read first, and refused before the report is read or judged. Nothing is written but for a front.
const REFUSED: &str = "
= The scenario is not there.
: words audit g s
: told 3 vplsnet: read fault
= A call that reads the scenario fails.
: shelf 1
: told 3 vplsnet: read fault
= The scenario is refused, and the report is no report.
: opening version = 3
events = [
: s

: told 5 vplsnet: scenario: Version
= The scenario is refused, and the report is not there.
: words audit f x
: opening version = 3
events = [
: told 5 vplsnet: scenario: Version
= The report is not there.
: words audit f x
: told 3 vplsnet: read fault
= A call that reads the report fails.
: shelf 3
: told 3 vplsnet: read fault
= The call of the sink fails.
: sink 1
: told 4 vplsnet: write fault
= The sink takes a front.
: room 5
: told 4 vplsnet: write fault
: taken
audit yes

";

// A file of 64 octets so many times, and then an octet.
const LONG: &str = "
: piece ###############################################################

: back #
: entries 0
";

const TOO_LONG: &str = "
= A scenario of 8,388,609 octets.
: words audit f s
: times 131072
: told 5 vplsnet: f is longer than 8388608
";

const LONG_REPORT: &str = r#"
= A report of 67,108,865 octets, behind a scenario.
: words audit s f
: times 1048576
: s
version = 2
events = []
edge = [{ name = "a", address = "10.0.0.1" }]

: told 5 vplsnet: f is longer than 67108864
"#;

#[test]
fn says_yes_to_good_reports(rt: HostRuntime) {
    plays(&rt, rt.alloc(), AUDIT, GOOD);
    plays(&rt, rt.alloc(), SPOKES, BOTH_SPOKES);
}

#[test]
fn tells_the_first_rule_that_fails(rt: HostRuntime) {
    plays(&rt, rt.alloc(), AUDIT, FORMLESS);
    plays(&rt, rt.alloc(), SPOKES, ONE_SPOKE);
    plays(&rt, rt.alloc(), AUDIT, BROKEN);
}

#[test]
fn judges_nothing_else(rt: HostRuntime) {
    let alloc = rt.alloc();
    lines_play(&rt, alloc, AUDIT, USAGE_ROWS);
    plays(&rt, alloc, AUDIT, REFUSED);
    plays(&rt, alloc, LONG, TOO_LONG);
}

// A test has a minute, so what takes long is a test of its own.
#[test]
fn judges_no_report_that_is_too_long(rt: HostRuntime) {
    plays(&rt, rt.alloc(), LONG, LONG_REPORT);
}
