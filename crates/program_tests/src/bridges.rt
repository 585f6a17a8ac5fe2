//! Whole replays of bridges that learn, age, and handle tags.

use crate::around::{REPLAY, plays};

// One edge and one service with three circuits, whose addresses age after two ticks.
const THREE: &str = r#"
: tables
[[edge]]
name = "e"
address = "10.0.0.1"
[[service]]
name = "s"
age = 2
[[circuit]]
name = "c1"
edge = "e"
service = "s"
[[circuit]]
name = "c2"
edge = "e"
service = "s"
[[circuit]]
name = "c3"
edge = "e"
service = "s"
= Addresses are learned, and forgotten after two ticks.
: front "frame c1 ffffffffffff0200000000010800",
"frame c2 0200000000010200000000020800",
"tick 2",
"frame c2 0200000000010200000000020800",
"frame c3 0200000000030200000000030800"
: taken
vplsnet 1
> frame c1 ffffffffffff0200000000010800
in c1 1 ffffffffffff0200000000010800
left c2 1 0 ffffffffffff0200000000010800
left c3 1 0 ffffffffffff0200000000010800
> frame c2 0200000000010200000000020800
in c2 2 0200000000010200000000020800
left c1 2 0 0200000000010200000000020800
> tick
> tick
> frame c2 0200000000010200000000020800
in c2 3 0200000000010200000000020800
left c1 3 0 0200000000010200000000020800
left c3 3 0 0200000000010200000000020800
> frame c3 0200000000030200000000030800
in c3 4 0200000000030200000000030800
end events=6 in=4 left=5 sent=0 dropped=0

= A frame of 1,518 octets with the MTU 1500.
: front "frame c1 ffffffffffff020000000001
: piece 08
: times 1506
: back "
: ends
end events=1 in=1 left=2 sent=0 dropped=0

= A frame of 1,519 octets.
: front "frame c1 ffffffffffff020000000001
: piece 08
: times 1507
: back "
: ends
end events=1 in=1 left=0 sent=0 dropped=1

= What was learned at a circuit is forgotten as it is off.
: front "frame c1 ffffffffffff0200000000010800",
"circuit c1 off",
"circuit c1 off",
"frame c1 ffffffffffff0200000000010800",
"frame c2 0200000000010200000000020800",
"circuit c1 on",
"frame c2 0200000000010200000000020800"
: taken
vplsnet 1
> frame c1 ffffffffffff0200000000010800
in c1 1 ffffffffffff0200000000010800
left c2 1 0 ffffffffffff0200000000010800
left c3 1 0 ffffffffffff0200000000010800
> circuit c1 off
> circuit c1 off
idle
> frame c1 ffffffffffff0200000000010800
idle
> frame c2 0200000000010200000000020800
in c2 2 0200000000010200000000020800
left c3 2 0 0200000000010200000000020800
> circuit c1 on
> frame c2 0200000000010200000000020800
in c2 3 0200000000010200000000020800
left c1 3 0 0200000000010200000000020800
left c3 3 0 0200000000010200000000020800
end events=7 in=3 left=5 sent=0 dropped=0

"#;

// The same with a tagged circuit and one for untagged frames.
const TWO: &str = r#"
: tables
[[edge]]
name = "e"
address = "10.0.0.1"
[[service]]
name = "s"
age = 2
[[circuit]]
name = "t7"
edge = "e"
service = "s"
tag = 7
[[circuit]]
name = "u"
edge = "e"
service = "s"
= A tag is put and taken off.
: front "frame t7 ffffffffffff020000000001810060070800",
"frame u ffffffffffff0200000000010800"
: taken
vplsnet 1
> frame t7 ffffffffffff020000000001810060070800
in t7 1 ffffffffffff020000000001810060070800
left u 1 0 ffffffffffff0200000000010800
> frame u ffffffffffff0200000000010800
in u 2 ffffffffffff0200000000010800
left t7 2 0 ffffffffffff020000000001810000070800
end events=2 in=2 left=2 sent=0 dropped=0

= Frames without the tag of their circuit, and short ones.
: front "frame u ffffffffffff02000000000108",
"frame t7 ffffffffffff0200000000010800",
"frame t7 ffffffffffff02000000000181000007",
"frame t7 ffffffffffff020000000001810000080800"
: taken
vplsnet 1
> frame u ffffffffffff02000000000108
in u 1 ffffffffffff02000000000108
dropped e 1 Short
> frame t7 ffffffffffff0200000000010800
in t7 2 ffffffffffff0200000000010800
dropped e 2 NoTag
> frame t7 ffffffffffff02000000000181000007
in t7 3 ffffffffffff02000000000181000007
dropped e 3 Short
> frame t7 ffffffffffff020000000001810000080800
in t7 4 ffffffffffff020000000001810000080800
dropped e 4 WrongTag
end events=4 in=4 left=0 sent=0 dropped=4

"#;

#[test]
fn learns_and_handles_tags(rt: HostRuntime) {
    plays(&rt, rt.alloc(), REPLAY, THREE);
    plays(&rt, rt.alloc(), REPLAY, TWO);
}
