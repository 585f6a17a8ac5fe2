//! Whole replays of frames over a mesh wire: they cross it, are lost, repeated and reordered, and are dropped.

use crate::around::plays;

// Two edges, a service with a circuit at each, and a mesh wire of it between them, whose row goes on.
const JOINED: &str = r#"
: words replay f
: opening version = 1
events = [
: closing ]
: tables
[[edge]]
name = "a"
address = "10.0.0.1"
[[edge]]
name = "b"
address = "10.0.0.2"
[[service]]
name = "s"
[[circuit]]
name = "ca"
edge = "a"
service = "s"
[[circuit]]
name = "cb"
edge = "b"
service = "s"
[[wire]]
name = "w"
service = "s"
class = "mesh"
pw_id = 100
path = ["a", "b"]
"#;

const CROSSES: &str = r#"
= The edges set the wire up, and a broadcast crosses it (RFC 4448 section 4).
: front "connect a b", "settle 20", "frame ca ffffffffffff0200000000010800", "flow 10"
: taken
vplsnet 1
> connect a b
session a b Initialized
session b a Initialized
said b a 000100200a000002000002000016000000010500000e000100b4000010000a0000010000
session b a OpenSent
> deliver b a 65535
said a b 000100200a000001000002000016000000010500000e000100b4000010000a0000020000
said a b 0001000e0a00000100000201000400000002
session a b OpenRec
> deliver a b 65535
said b a 0001000e0a00000200000201000400000002
session b a OpenRec
session b a Operational
said b a 000100320a0000020000040000280000000301000010808005080000000000000064010405dc0200000400000010896a000400000000
wire b w NoRemote
> deliver b a 65535
session a b Operational
said a b 000100320a0000010000040000280000000301000010808005080000000000000064010405dc0200000400000010896a000400000000
wire a w NoRemote
wire a w up
> deliver a b 65535
wire b w up
> frame ca ffffffffffff0200000000010800
in ca 1 ffffffffffff0200000000010800
sent 1 a b w ca 1 1 000101ff00000000ffffffffffff0200000000010800
> arrive 1
left cb 1 1 ffffffffffff0200000000010800
end events=7 in=1 left=1 sent=1 dropped=0

= The far edge requests VLAN ID 9, and takes the tag off again (RFC 4448 sections 4.3 and 4.4).
: front "connect a b", "settle 1000", 
: back "frame ca ffffffffffff0200000000010800", "flow 10"
: more
mode = "tagged"
far_vlan = 9
control_word = false
: ends
sent 1 a b w ca 1 1 000101ffffffffffffff020000000001810000090800
> arrive 1
left cb 1 1 ffffffffffff0200000000010800
end events=7 in=1 left=1 sent=1 dropped=0

= The ends tell two MTUs.
: front "connect a b", "settle 1000", 
: back "frame ca ffffffffffff0200000000010800"
: more
far_mtu = 1400
: ends
> frame ca ffffffffffff0200000000010800
in ca 1 ffffffffffff0200000000010800
end events=6 in=1 left=0 sent=0 dropped=0

"#;

const SIZES: &str = r#"
: front "connect a b", "settle 1000", "frame ca ffffffffffff020000000001
: piece 08
: back ", "flow 1"
= A broadcast of 1,518 octets: the MTU of 1500 octets, a header of 14, and room for a tag of the customer's own.
: times 1506
: ends
end events=7 in=1 left=1 sent=1 dropped=0

= 1,519 octets.
: times 1507
: ends
dropped a 1 Long
end events=6 in=1 left=0 sent=0 dropped=1

= 13 octets.
: times 1
: ends
dropped a 1 Short
end events=6 in=1 left=0 sent=0 dropped=1

"#;

const LOST: &str = r#"
: front "connect a b", "settle 1000", 
= The first copy is lost, the second is repeated and arrives behind its copy, and the third overtakes both.
: back "frame ca ffffffffffff0200000000010800", "frame ca ffffffffffff0200000000010801",
"frame ca ffffffffffff0200000000010802", "drop 1", "again 2", "arrive 3", "arrive 4", "arrive 2",
"arrive 1", "again 1", "drop 1"
: ends
> drop 1
> again 2
copied 4 2
> arrive 3
left cb 3 1 ffffffffffff0200000000010802
> arrive 4
left cb 2 1 ffffffffffff0200000000010801
> arrive 2
left cb 2 1 ffffffffffff0200000000010801
> arrive 1
idle
> again 1
idle
> drop 1
idle
end events=16 in=3 left=3 sent=3 dropped=0

= The label is withdrawn.
: back "frame ca ffffffffffff0200000000010800", "wire b w off", "settle 20", "wire b w on", "settle 20",
"arrive 1"
: ends
> arrive 1
dropped b 1 NoLabel
end events=12 in=1 left=0 sent=1 dropped=1

= The label was that of the first of two services; after the restart no service has it.
: back "frame ca ffffffffffff0200000000010800", "restart b", "settle 20", "connect a b", "settle 20", "arrive 1"
: more
[[service]]
name = "r"
[[circuit]]
name = "ra"
edge = "a"
service = "r"
[[circuit]]
name = "rb"
edge = "b"
service = "r"
[[wire]]
name = "v"
service = "r"
class = "mesh"
pw_id = 200
path = ["a", "b"]
: ends
> arrive 1
dropped b 1 NoLabel
end events=14 in=1 left=0 sent=1 dropped=1

"#;

const CROWDED: &str = r#"
= 65,537 broadcasts, of which none arrives: 65,536 packets are sent, and the next frame is refused.
: front "connect a b", "settle 1000"
: piece , "frame ca ffffffffffff0200000000010800"
: times 65537
: room 20000000
: told 7 vplsnet: stopped: Crowded 65536 65542
: ends
stop Crowded 65536

"#;

#[test]
fn crosses_a_mesh_wire(rt: HostRuntime) {
    plays(&rt, rt.alloc(), JOINED, CROSSES);
    plays(&rt, rt.alloc(), JOINED, SIZES);
}

#[test]
fn is_lost_overtaken_and_dropped(rt: HostRuntime) {
    plays(&rt, rt.alloc(), JOINED, LOST);
}

// A test has a minute, so what takes long is a test of its own.
#[test]
fn stops_where_the_network_is_crowded(rt: HostRuntime) {
    plays(&rt, rt.alloc(), JOINED, CROWDED);
}
