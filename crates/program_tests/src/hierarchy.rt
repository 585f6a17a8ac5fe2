//! Whole replays over a hierarchy: core edges in full mesh, and spoke edges that hang on them (RFC 4762 section 10).

use crate::around::plays;

// Six edges with a circuit each: four core edges in full mesh, and a spoke from each of the other two edges.
const HIERARCHY: &str = r#"
: words replay f
: opening version = 1
events = [
: closing ]
: tables
[[edge]]
name = "a"
address = "10.0.0.1"
[[edge]]
name = "b"
address = "10.0.0.2"
[[edge]]
name = "c"
address = "10.0.0.3"
[[edge]]
name = "d"
address = "10.0.0.4"
[[edge]]
name = "x"
address = "10.0.0.5"
[[edge]]
name = "y"
address = "10.0.0.6"
[[service]]
name = "s"
[[circuit]]
name = "ca"
edge = "a"
service = "s"
[[circuit]]
name = "cb"
edge = "b"
service = "s"
[[circuit]]
name = "cc"
edge = "c"
service = "s"
[[circuit]]
name = "cd"
edge = "d"
service = "s"
[[circuit]]
name = "cx"
edge = "x"
service = "s"
[[circuit]]
name = "cy"
edge = "y"
service = "s"
: wires
[[wire]]
name = "ab"
service = "s"
class = "mesh"
pw_id = 100
path = ["a", "b"]
[[wire]]
name = "ac"
service = "s"
class = "mesh"
pw_id = 101
path = ["a", "c"]
[[wire]]
name = "ad"
service = "s"
class = "mesh"
pw_id = 102
path = ["a", "d"]
[[wire]]
name = "bc"
service = "s"
class = "mesh"
pw_id = 103
path = ["b", "c"]
[[wire]]
name = "bd"
service = "s"
class = "mesh"
pw_id = 104
path = ["b", "d"]
[[wire]]
name = "dc"
service = "s"
class = "mesh"
pw_id = 105
path = ["d", "c"]
[[wire]]
name = "xa"
service = "s"
class = "spoke"
pw_id = 201
priority = 10
path = ["x", "a"]
[[wire]]
name = "yc"
service = "s"
class = "spoke"
pw_id = 203
priority = 10
path = ["y", "c"]
"#;

// A broadcast of a station at x goes to every other edge, and the answer to it comes back to x alone (RFC 4762 sections 4.1 and 4.4). On
// its move the edge x tells on its first spoke that it stands by, on its second that it does so no longer, and withdraws addresses there
// (RFC 6870, RFC 4762 section 6.2).
const FLOODED: &str = r#"
: front "connect a b", "connect a c", "connect a d", "connect a x", "connect b c", "connect b d", "connect c d", "connect c y", "settle 1000"
: back , "frame cx ffffffffffff0200000000010800", "flow 100", "frame cy 0200000000010200000000020800", "flow 100"
: begins
> frame cx ffffffffffff0200000000010800
in cx 1 ffffffffffff0200000000010800
sent 1 x a xa cx 1 1 000131ff00000000ffffffffffff0200000000010800
> arrive 1
left ca 1 1 ffffffffffff0200000000010800
sent 2 a b ab xa 1 2 000101ff00000000ffffffffffff0200000000010800
sent 3 a c ac xa 1 2 000101ff00000000ffffffffffff0200000000010800
sent 4 a d ad xa 1 2 000101ff00000000ffffffffffff0200000000010800
> arrive 2
left cb 1 2 ffffffffffff0200000000010800
> arrive 3
left cc 1 2 ffffffffffff0200000000010800
sent 5 c y yc ac 1 3 000101ff00000000ffffffffffff0200000000010800
> arrive 4
left cd 1 2 ffffffffffff0200000000010800
> arrive 5
left cy 1 3 ffffffffffff0200000000010800
> frame cy 0200000000010200000000020800
in cy 2 0200000000010200000000020800
sent 6 y c yc cy 2 1 000131ff000000000200000000010200000000020800
> arrive 6
sent 7 c a ac yc 2 2 000111ff000000000200000000010200000000020800
> arrive 7
sent 8 a x xa ac 2 3 000101ff000000000200000000010200000000020800
> arrive 8
left cx 2 3 0200000000010200000000020800

= Every wire is set up.
: ends
end events=59 in=2 left=6 sent=8 dropped=0

= Each spoke edge has two spokes.
: front "connect a b", "connect a c", "connect a d", "connect a x", "connect b c", "connect b d", "connect b x", "connect c d", "connect c y", "connect d y", "settle 1000"
: more
[[wire]]
name = "xb"
service = "s"
class = "spoke"
pw_id = 202
priority = 20
path = ["x", "b"]
[[wire]]
name = "yd"
service = "s"
class = "spoke"
pw_id = 204
priority = 20
path = ["y", "d"]
: ends
end events=70 in=2 left=6 sent=8 dropped=0

= The same, and then the move of the edge x to its second spoke.
: front "connect a b", "connect a c", "connect a d", "connect a x", "connect b c", "connect b d", "connect b x", "connect c d", "connect c y", "connect d y", "settle 1000"
: back , "frame cx ffffffffffff0200000000010800", "flow 100", "frame cy 0200000000010200000000020800", "flow 100", "priority x xb 5"
: more
[[wire]]
name = "xb"
service = "s"
class = "spoke"
pw_id = 202
priority = 20
path = ["x", "b"]
[[wire]]
name = "yd"
service = "s"
class = "spoke"
pw_id = 204
priority = 20
path = ["y", "d"]
: ends
> priority x xb 5
said x a 000100340a00000500000001002a000000060300000a00000028000000000000896a0004000000200100000c8080050400000000000000c9
said x b 000100340a00000500000001002a000000040300000a00000028000000000000896a0004000000000100000c8080050400000000000000ca
said x b 000100220a000005000003010018000000050100000c8080050400000000000000ca84040000
wire x xa Standby
wire x xb up
end events=71 in=2 left=6 sent=8 dropped=0

"#;

// After the move a frame for the station.
const FOUND: &str = r#"
= Each edge has forgotten the station: a frame for it comes to each other edge, and to x by the second spoke.
: front "connect a b", "connect a c", "connect a d", "connect a x", "connect b c", "connect b d", "connect b x", "connect c d", "connect c y", "connect d y", "settle 1000"
: back , "frame cx ffffffffffff0200000000010800", "flow 100", "frame cy 0200000000010200000000020800", "flow 100", "priority x xb 5", "settle 100", "frame cd 0200000000010200000000040800", "flow 100"
: more
[[wire]]
name = "xb"
service = "s"
class = "spoke"
pw_id = 202
priority = 20
path = ["x", "b"]
[[wire]]
name = "yd"
service = "s"
class = "spoke"
pw_id = 204
priority = 20
path = ["y", "d"]
: ends
> frame cd 0200000000010200000000040800
in cd 3 0200000000010200000000040800
sent 9 d a ad cd 3 1 000121ff000000000200000000010200000000040800
sent 10 d b bd cd 3 1 000121ff000000000200000000010200000000040800
sent 11 d c dc cd 3 1 000121ff000000000200000000010200000000040800
> arrive 9
left ca 3 1 0200000000010200000000040800
> arrive 10
left cb 3 1 0200000000010200000000040800
sent 12 b x xb bd 3 2 000111ff000000000200000000010200000000040800
> arrive 11
left cc 3 1 0200000000010200000000040800
sent 13 c y yc dc 3 2 000101ff000000000200000000010200000000040800
> arrive 12
left cx 3 2 0200000000010200000000040800
> arrive 13
left cy 3 2 0200000000010200000000040800
end events=85 in=3 left=11 sent=13 dropped=0

"#;

#[test]
fn floods_and_moves_over_a_hierarchy(rt: HostRuntime) {
    plays(&rt, rt.alloc(), HIERARCHY, FLOODED);
    plays(&rt, rt.alloc(), HIERARCHY, FOUND);
}
