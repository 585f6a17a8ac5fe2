//! The command `switchover`: scripts over a plan of two edges, and what is refused before. No network runs, so that there are no entries.

use crate::around::{lines_play, plays};
use crate::discoveries::PLAN;

// Where both ask, each hears a request while it asks itself: the other end does not stand by, so it is active and asks no more, and answers
// once; the answers change nothing (RFC 6870 section 5).
const DONE: &str = "
: words switchover f s
: entries 0
= No line.
: taken
switchover 1
end lines=0

= One edge asks, and the other one answers.
: s
connect a b
settle 9
ask a w
settle 9

: taken
switchover 1
> connect a b
said a b 000100340a00000100000001002a000000010300000a00000028000000000000896a0004000000200100000c808005040000000000000064
said b a 000100340a00000200000001002a000000010300000a00000028000000000000896a0004000000200100000c808005040000000000000064
> settle 9
> ask a w
said a b 000100340a00000100000001002a000000020300000a00000028000000000000896a0004000000400100000c808005040000000000000064
> settle 9
said b a 000100340a00000200000001002a000000020300000a00000028000000000000896a0004000000000100000c808005040000000000000064
uses b w yes
said a b 000100340a00000100000001002a000000030300000a00000028000000000000896a0004000000000100000c808005040000000000000064
uses a w yes
end lines=4

= Both ask, before either has heard of it.
: s
connect a b
settle 56
ask a w
ask b w
deliver a b 56
deliver b a 56
settle 1

: taken
switchover 1
> connect a b
said a b 000100340a00000100000001002a000000010300000a00000028000000000000896a0004000000200100000c808005040000000000000064
said b a 000100340a00000200000001002a000000010300000a00000028000000000000896a0004000000200100000c808005040000000000000064
> settle 56
> ask a w
said a b 000100340a00000100000001002a000000020300000a00000028000000000000896a0004000000400100000c808005040000000000000064
> ask b w
said b a 000100340a00000200000001002a000000020300000a00000028000000000000896a0004000000400100000c808005040000000000000064
> deliver a b 56
said b a 000100340a00000200000001002a000000030300000a00000028000000000000896a0004000000000100000c808005040000000000000064
uses b w yes
> deliver b a 56
said a b 000100340a00000100000001002a000000030300000a00000028000000000000896a0004000000000100000c808005040000000000000064
uses a w yes
> settle 1
end lines=7

= Lines that do not apply.
: s
deliver a b 9
cut a b
settle 1
active a w
active a w

: taken
switchover 1
> deliver a b 9
idle
> cut a b
idle
> settle 1
idle
> active a w
> active a w
idle
end lines=5

";

// A script is refused where the scenario is not, at its first fault, and none of its lines is done before.
const REFUSED: &str = "
: words switchover f s
: entries 0
= A number that is too great.
: s
connect a b
settle 10001

: told 5 vplsnet: script: 2 2
= An edge that is not there.
: s
ask c w
ask a w \n
: told 5 vplsnet: script: 2 4
= A line that lacks a word.
: s
ask a

: told 5 vplsnet: script: 1 3
= The scenario is read first.
: words switchover f x
: opening version = 3
events = [
: told 5 vplsnet: scenario: Version
";

const USAGE_ROWS: &str = "
    $ switchover f -> ! 2 vplsnet: usage
    $ switchover -f s -> ! 2 vplsnet: usage
";

// A file is not there, or a call of the sink fails, which took a front before.
const FAILED: &str = "
: words switchover f s
: entries 0
= The script is not there.
: words switchover f x
: told 3 vplsnet: read fault
= A call of the sink fails.
: sink 1
: told 4 vplsnet: write fault
= The sink takes a front.
: s
deliver a b 9
cut a b
settle 1
active a w
active a w

: room 14
: told 4 vplsnet: write fault
: taken
switchover 1
> deliver a b 9
idle
> cut a b
idle
> settle 1
idle
> active a w
> active a w
idle
end lines=5

";

#[test]
fn tells_what_comes_of_lines(rt: HostRuntime) {
    plays(&rt, rt.alloc(), PLAN, DONE);
}

#[test]
fn does_nothing_else(rt: HostRuntime) {
    plays(&rt, rt.alloc(), PLAN, REFUSED);
    lines_play(&rt, rt.alloc(), PLAN, USAGE_ROWS);
    plays(&rt, rt.alloc(), PLAN, FAILED);
}
