//! Whole replays of pings of a pseudowire in each of its control channels (RFC 5085): over two edges, over five, and where no channel
//! is shared.

use crate::around::plays;

// Two edges, and a mesh wire between them without its channels.
const TWO: &str = r#"
: words replay f
: opening version = 1
events = [
: front "connect a b", "settle 1000", 
: back "ping a w", "flow 10"
: closing ]
: tables
edge = [{ name = "a", address = "10.0.0.1" }, { name = "b", address = "10.0.0.2" }]
service = [{ name = "s" }]
: wires
[[wire]]
name = "w"
service = "s"
class = "mesh"
pw_id = 100
path = ["a", "b"]
"#;

// The same with three switching points between them.
const FIVE: &str = r#"
: words replay f
: opening version = 1
events = [
: front "connect a p", "connect p q", "connect q r", "connect r b", "settle 1000", 
: back "ping a w", "flow 20"
: closing ]
: tables
edge = [
  { name = "a", address = "10.0.0.1" },
  { name = "b", address = "10.0.0.2" },
  { name = "p", address = "10.0.0.3" },
  { name = "q", address = "10.0.0.4" },
  { name = "r", address = "10.0.0.5" },
]
service = [{ name = "s" }]
: wires
[[wire]]
name = "w"
service = "s"
class = "mesh"
pw_id = 100
path = ["a", "p", "q", "r", "b"]
"#;

const ANSWERED: &str = r#"
= Behind an associated channel header, with a control word (type 1).
: more
vccv = 1
: ends
> ping a w
sent 1 a b w - 0 1 000101ff100000214500001c00000000ff01a7de0a0000010a0000020800f79a00640001
> arrive 1
sent 2 b a w - 0 2 000101ff100000214500001c00000000ff01a7de0a0000020a0000010000ff9a00640001
> arrive 2
pong a w 1
end events=8 in=0 left=0 sent=2 dropped=0

= Behind a router alert label (type 2).
: more
vccv = 2
control_word = false
: ends
> ping a w
sent 1 a b w - 0 1 000010ff000101ff4500001c00000000ff01a7de0a0000010a0000020800f79a00640001
> arrive 1
sent 2 b a w - 0 2 000010ff000101ff4500001c00000000ff01a7de0a0000020a0000010000ff9a00640001
> arrive 2
pong a w 1
end events=8 in=0 left=0 sent=2 dropped=0

= With a TTL that ends at the far edge (type 3).
: more
vccv = 4
control_word = false
: ends
> ping a w
sent 1 a b w - 0 1 000101014500001c00000000ff01a7de0a0000010a0000020800f79a00640001
> arrive 1
sent 2 b a w - 0 2 000101014500001c00000000ff01a7de0a0000020a0000010000ff9a00640001
> arrive 2
pong a w 1
end events=8 in=0 left=0 sent=2 dropped=0

= Pings in turn.
: back "ping a w", "ping a w", "ping b w", "flow 10"
: more
vccv = 1
: ends
> ping a w
sent 1 a b w - 0 1 000101ff100000214500001c00000000ff01a7de0a0000010a0000020800f79a00640001
> ping a w
sent 2 a b w - 0 1 000101ff100000214500001c00000000ff01a7de0a0000010a0000020800f79900640002
> ping b w
sent 3 b a w - 0 1 000101ff100000214500001c00000000ff01a7de0a0000020a0000010800f79a00640001
> arrive 1
sent 4 b a w - 0 2 000101ff100000214500001c00000000ff01a7de0a0000020a0000010000ff9a00640001
> arrive 2
sent 5 b a w - 0 2 000101ff100000214500001c00000000ff01a7de0a0000020a0000010000ff9900640002
> arrive 3
sent 6 a b w - 0 2 000101ff100000214500001c00000000ff01a7de0a0000010a0000020000ff9a00640001
> arrive 4
pong a w 1
> arrive 5
pong a w 2
> arrive 6
pong b w 1
end events=14 in=0 left=0 sent=6 dropped=0

= Pings of each end are numbered from 1, and from 1 again after a restart. While the wire is off at an end, nothing is asked there.
: back "ping a w", "ping a w", "ping b w", "flow 10", "restart a", "settle 1000", "connect a b", "settle 1000", "ping a w", "flow 10", "wire a w off", "ping a w"
: more
vccv = 1
: ends
> ping a w
sent 7 a b w - 0 1 000111ff100000214500001c00000000ff01a7de0a0000010a0000020800f79a00640001
> arrive 7
sent 8 b a w - 0 2 000111ff100000214500001c00000000ff01a7de0a0000020a0000010000ff9a00640001
> arrive 8
pong a w 1
> wire a w off
said a b 000100260a00000100000402001c000000040100000c8080050400000000000000640200000400000011
wire a w NoLocal
> ping a w
idle
end events=26 in=0 left=0 sent=8 dropped=0

"#;

const THROUGH: &str = "
= Each switching point takes one from the TTL, and the answer has as much again (RFC 6073 section 4).
: more
vccv = 1
: begins
> ping a w
sent 1 a p w - 0 1 000111ff100000214500001c00000000ff01a7de0a0000010a0000020800f79a00640001
> arrive 1
sent 2 p q w w 0 2 000111fe100000214500001c00000000ff01a7de0a0000010a0000020800f79a00640001
> arrive 2
sent 3 q r w w 0 3 000101fd100000214500001c00000000ff01a7de0a0000010a0000020800f79a00640001
> arrive 3
sent 4 r b w w 0 4 000101fc100000214500001c00000000ff01a7de0a0000010a0000020800f79a00640001
> arrive 4
sent 5 b r w - 0 5 000111ff100000214500001c00000000ff01a7de0a0000020a0000010000ff9a00640001
> arrive 5
sent 6 r q w w 0 6 000101fe100000214500001c00000000ff01a7de0a0000020a0000010000ff9a00640001
> arrive 6
sent 7 q p w w 0 7 000101fd100000214500001c00000000ff01a7de0a0000020a0000010000ff9a00640001
> arrive 7
sent 8 p a w w 0 8 000101fc100000214500001c00000000ff01a7de0a0000020a0000010000ff9a00640001
> arrive 8
pong a w 1

: ends
end events=32 in=0 left=0 sent=8 dropped=0

= A router alert does not pass a switching point, so the TTL is taken: one more than there are switching points (RFC 5085 section 5.1.3).
: more
vccv = 6
control_word = false
: begins
> ping a w
sent 1 a p w - 0 1 000111044500001c00000000ff01a7de0a0000010a0000020800f79a00640001
> arrive 1
sent 2 p q w w 0 2 000111034500001c00000000ff01a7de0a0000010a0000020800f79a00640001
> arrive 2
sent 3 q r w w 0 3 000101024500001c00000000ff01a7de0a0000010a0000020800f79a00640001
> arrive 3
sent 4 r b w w 0 4 000101014500001c00000000ff01a7de0a0000010a0000020800f79a00640001
> arrive 4
sent 5 b r w - 0 5 000111044500001c00000000ff01a7de0a0000020a0000010000ff9a00640001
> arrive 5
sent 6 r q w w 0 6 000101034500001c00000000ff01a7de0a0000020a0000010000ff9a00640001
> arrive 6
sent 7 q p w w 0 7 000101024500001c00000000ff01a7de0a0000020a0000010000ff9a00640001
> arrive 7
sent 8 p a w w 0 8 000101014500001c00000000ff01a7de0a0000020a0000010000ff9a00640001
> arrive 8
pong a w 1

: ends
end events=32 in=0 left=0 sent=8 dropped=0

";

const UNSHARED: &str = "
= One end tells no channel.
: more
vccv = 1
far_vccv = 0
: ends
> ping a w
idle
end events=6 in=0 left=0 sent=0 dropped=0

= One end tells no type that the other one tells too.
: more
vccv = 1
far_vccv = 6
: ends
> ping a w
idle
end events=6 in=0 left=0 sent=0 dropped=0

";

const UNANSWERED: &str = r#"
= One end alone uses a control word, so each sends in a channel that the other one has not picked.
: back "ping a w", "flow 10", "ping b w", "flow 10"
: more
vccv = 3
far_vccv = 3
far_control_word = false
: ends
> ping a w
sent 1 a b w - 0 1 000101ff100000214500001c00000000ff01a7de0a0000010a0000020800f79a00640001
> arrive 1
dropped b 0 Down
> ping b w
sent 2 b a w - 0 1 000010ff000101ff4500001c00000000ff01a7de0a0000020a0000010800f79a00640001
> arrive 2
dropped a 0 NotOffered
end events=9 in=0 left=0 sent=2 dropped=2

"#;

#[test]
fn pings_are_answered_in_each_channel(rt: HostRuntime) {
    plays(&rt, rt.alloc(), TWO, ANSWERED);
    plays(&rt, rt.alloc(), FIVE, THROUGH);
}

#[test]
fn no_ping_is_sent_where_no_channel_is_shared(rt: HostRuntime) {
    plays(&rt, rt.alloc(), TWO, UNSHARED);
}

#[test]
fn no_ping_is_answered_where_the_control_words_differ(rt: HostRuntime) {
    plays(&rt, rt.alloc(), TWO, UNANSWERED);
}
