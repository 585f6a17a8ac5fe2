//! The command `discover`: scripts over a plan of two edges, and what is refused before.

use crate::around::{lines_play, plays};

/// Two edges, a mesh wire and a circuit, and an empty script. The scenario plays a capture that is not there: its events are not done, and
/// what they play is not read.
pub const PLAN: &str = r#"
: s

: opening version = 2
events = ["play c k"
: closing ]
: tables
edge = [{ name = "a", address = "10.0.0.1" }, { name = "b", address = "10.0.0.2" }]
service = [{ name = "s" }]
[[wire]]
name = "w"
service = "s"
class = "mesh"
path = ["a", "b"]
pw_id = 100
[[circuit]]
name = "c"
edge = "a"
service = "s"
"#;

const DONE: &str = "
: words discover f s
= No line.
: entries 0
: taken
vplsnet 1
end events=0 in=0 left=0 sent=0 dropped=0

= Adjacencies of 45 and 15 ticks: one opening is barred, and what stands on the shorter one is lost with it.
: s
hello a b 45
hello b a 15
bring 1
open a b
bring 2
open a b
tick
tick
tick
tick
tick
tick
tick
tick
tick
tick
tick
tick
tick
tick
tick

: taken
vplsnet 1
hello 1 a b 0001001e0a0000010000010000140000000104000004002dc000040100040a000001
hello 2 b a 0001001e0a0000020000010000140000000104000004000fc000040100040a000002
adjacency b a up
barred a b
adjacency a b up
> connect a b
session a b Initialized
session b a Initialized
said b a 000100200a000002000002000016000000010500000e000100b4000010000a0000010000
session b a OpenSent
> tick
> tick
> tick
> tick
> tick
> tick
> tick
> tick
> tick
> tick
> tick
> tick
> tick
> tick
adjacency a b down
> lose a b
session a b Ended:Closed
adjacency b a down
> lose b a
session b a Ended:Closed
> tick
end events=18 in=0 left=0 sent=0 dropped=0

= Lines that do not apply, an opening without adjacencies, and commands.
: s
hello a a 1
bring 9
open b b
open a b
do settle 3
do lose a b

: taken
vplsnet 1
idle
idle
idle
barred a b
> lose a b
idle
end events=1 in=0 left=0 sent=0 dropped=0

= A Hello is brought twice, and one late; an edge restarts between, and its adjacencies last.
: s
hello a b 0
hello b a 1
bring 2
bring 1
bring 1
open a b
do restart a
open a b
tick
bring 2
open a b
bring 1
open a b

: taken
vplsnet 1
hello 1 a b 0001001e0a00000100000100001400000001040000040000c000040100040a000001
hello 2 b a 0001001e0a00000200000100001400000001040000040001c000040100040a000002
adjacency a b up
adjacency b a up
> connect a b
session a b Initialized
session b a Initialized
said b a 000100200a000002000002000016000000010500000e000100b4000010000a0000010000
session b a OpenSent
> restart a
> connect a b
idle
adjacency a b down
adjacency b a down
> lose b a
session b a Ended:Closed
> tick
adjacency a b up
barred a b
adjacency b a up
> connect a b
session a b Initialized
session b a Initialized
said b a 000100200a000002000002000016000000010500000e000100b4000010000a0000010000
session b a OpenSent
end events=6 in=0 left=0 sent=0 dropped=0

";

// A script is refused where the scenario is not, at its first fault, and none of its lines is done before.
const REFUSED: &str = "
: words discover f s
= A number that is too great.
: s
hello a b 1
hello a b 70000

: entries 0
: told 5 vplsnet: script: 2 4
= An edge that is not there.
: s
hello a c 1


: told 5 vplsnet: script: 2 1
= A command that is none.
: s
do tick

: told 5 vplsnet: script: 1 2
= A line without its end.
: s
tick
: told 5 vplsnet: script: 1 2
= The scenario is refused first.
: opening version = 3
events = [
: s
tock

: told 5 vplsnet: scenario: Version
= The scenario is read first.
: words discover f x
: opening version = 3
events = [
: told 5 vplsnet: scenario: Version
";

const USAGE_ROWS: &str = "
    $ discover f -> ! 2 vplsnet: usage
    $ discover f s s -> ! 2 vplsnet: usage
    $ discover f -s -> ! 2 vplsnet: usage
";

// A scenario of two edges that connect, as a second file: the script is the first one.
const PAIR: &str = r#"
: s
version = 2
events = []
edge = [{ name = "a", address = "10.0.0.1" }, { name = "b", address = "10.0.0.2" }]
service = [{ name = "s" }]
[[wire]]
name = "w"
service = "s"
class = "mesh"
path = ["a", "b"]
pw_id = 100
[[circuit]]
name = "c"
edge = "a"
service = "s"

: words discover s f
"#;

const CROWDED: &str = "
= As many copies of one packet are under way as may be, and the line that asks for one more is not done.
: opening hello a b 0
hello b a 0
bring 1
bring 2
open a b
do settle 20
do frame c ffffffffffff0200000000010800

: piece do again 1

: times 65536
: room 8000000
: told 7 vplsnet: stopped: Crowded 65536 65542
: begins
copied 65536 1

: ends
stop Crowded 65536

";

const LONG: &str = "
= A script of 8,388,609 octets.
: piece tick
bring 9
hello a b 0
bring 1

: times 254200
: back bring 10

: told 5 vplsnet: f is longer than 8388608
";

// A file is not there, a call of the shelf fails, or one of the sink, which took a front before.
const FAILED: &str = "
: words discover f s
= The script is not there.
: words discover f x
: told 3 vplsnet: read fault
= A call of the shelf fails.
: shelf 1
: told 3 vplsnet: read fault
= A call of the sink fails.
: sink 1
: told 4 vplsnet: write fault
= The sink takes a front.
: s
hello a a 1
bring 9
open b b
open a b
do settle 3
do lose a b

: room 14
: told 4 vplsnet: write fault
: taken
vplsnet 1
idle
idle
idle
barred a b
> lose a b
idle
end events=1 in=0 left=0 sent=0 dropped=0

";

#[test]
fn reports_scripts(rt: HostRuntime) {
    plays(&rt, rt.alloc(), PLAN, DONE);
}

#[test]
fn stops_a_script_at_a_limit(rt: HostRuntime) {
    plays(&rt, rt.alloc(), PAIR, CROWDED);
}

#[test]
fn refuses_a_script_that_is_too_long(rt: HostRuntime) {
    plays(&rt, rt.alloc(), PAIR, LONG);
}

#[test]
fn refuses_what_is_no_script(rt: HostRuntime) {
    plays(&rt, rt.alloc(), PLAN, REFUSED);
    lines_play(&rt, rt.alloc(), PLAN, USAGE_ROWS);
    plays(&rt, rt.alloc(), PLAN, FAILED);
}
