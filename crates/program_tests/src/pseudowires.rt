//! Whole replays of pseudowires: two edges set one up, do not agree, lose their connection, and run out of labels.

use crate::around::plays;

// Two edges, two services, and a mesh wire of the first one between the edges, which connect.
const JOINED: &str = r#"
: words replay f
: opening version = 1
events = [
: front "connect a b", "settle 20"
: closing ]
: tables
[[edge]]
name = "a"
address = "10.0.0.1"
: wires
[[edge]]
name = "b"
address = "10.0.0.2"
[[service]]
name = "s"
[[service]]
name = "r"
[[wire]]
name = "w"
service = "s"
class = "mesh"
pw_id = 100
path = ["a", "b"]
"#;

const ROWS: &str = r#"
= Each edge advertises a label, and binds that of the other (RFC 5036 section 3.5.7, RFC 8077 section 6).
: taken
vplsnet 1
> connect a b
session a b Initialized
session b a Initialized
said b a 000100200a000002000002000016000000010500000e000100b4000010000a0000010000
session b a OpenSent
> deliver b a 65535
said a b 000100200a000001000002000016000000010500000e000100b4000010000a0000020000
said a b 0001000e0a00000100000201000400000002
session a b OpenRec
> deliver a b 65535
said b a 0001000e0a00000200000201000400000002
session b a OpenRec
session b a Operational
said b a 000100320a0000020000040000280000000301000010808005080000000000000064010405dc0200000400000010896a000400000000
wire b w NoRemote
> deliver b a 65535
session a b Operational
said a b 000100320a0000010000040000280000000301000010808005080000000000000064010405dc0200000400000010896a000400000000
wire a w NoRemote
wire a w up
> deliver a b 65535
wire b w up
end events=5 in=0 left=0 sent=0 dropped=0

= The ends tell MTUs of 1500 and 1400 octets, and are down for that (RFC 8077 section 6.4).
: more
far_mtu = 1400
: taken
vplsnet 1
> connect a b
session a b Initialized
session b a Initialized
said b a 000100200a000002000002000016000000010500000e000100b4000010000a0000010000
session b a OpenSent
> deliver b a 65535
said a b 000100200a000001000002000016000000010500000e000100b4000010000a0000020000
said a b 0001000e0a00000100000201000400000002
session a b OpenRec
> deliver a b 65535
said b a 0001000e0a00000200000201000400000002
session b a OpenRec
session b a Operational
said b a 000100320a0000020000040000280000000301000010808005080000000000000064010405780200000400000010896a000400000000
wire b w NoRemote
> deliver b a 65535
session a b Operational
said a b 000100320a0000010000040000280000000301000010808005080000000000000064010405dc0200000400000010896a000400000000
wire a w NoRemote
wire a w Mtu
> deliver a b 65535
wire b w Mtu
end events=5 in=0 left=0 sent=0 dropped=0

= The connection is lost within a Label Mapping, and a new one brings the wire up under a new label.
: front "connect a b", "deliver b a 36", "deliver a b 54", "deliver b a 18", "deliver b a 44", "lose a b", "settle 20", "connect a b", "settle 20"
: taken
vplsnet 1
> connect a b
session a b Initialized
session b a Initialized
said b a 000100200a000002000002000016000000010500000e000100b4000010000a0000010000
session b a OpenSent
> deliver b a 36
said a b 000100200a000001000002000016000000010500000e000100b4000010000a0000020000
said a b 0001000e0a00000100000201000400000002
session a b OpenRec
> deliver a b 54
said b a 0001000e0a00000200000201000400000002
session b a OpenRec
session b a Operational
said b a 000100320a0000020000040000280000000301000010808005080000000000000064010405dc0200000400000010896a000400000000
wire b w NoRemote
> deliver b a 18
session a b Operational
said a b 000100320a0000010000040000280000000301000010808005080000000000000064010405dc0200000400000010896a000400000000
wire a w NoRemote
> deliver b a 44
> lose a b
session a b Ended:Closed
wire a w NoLocal
> deliver a b 65535
wire b w up
> deliver a b 65535
session b a Ended:Closed
wire b w NoLocal
> connect a b
session a b Initialized
session b a Initialized
said b a 000100200a000002000002000016000000010500000e000100b4000010000a0000010000
session b a OpenSent
> deliver b a 65535
said a b 000100200a000001000002000016000000010500000e000100b4000010000a0000020000
said a b 0001000e0a00000100000201000400000002
session a b OpenRec
> deliver a b 65535
said b a 0001000e0a00000200000201000400000002
session b a OpenRec
session b a Operational
said b a 000100320a0000020000040000280000000301000010808005080000000000000064010405dc0200000400000011896a000400000000
wire b w NoRemote
> deliver b a 65535
session a b Operational
said a b 000100320a0000010000040000280000000301000010808005080000000000000064010405dc0200000400000011896a000400000000
wire a w NoRemote
wire a w up
> deliver a b 65535
wire b w up
end events=13 in=0 left=0 sent=0 dropped=0

= One edge has a single label left, for the first of two wires (RFC 3032 section 2.1).
: tables
[[edge]]
name = "a"
address = "10.0.0.1"
first_label = 1048575
: more
[[wire]]
name = "v"
service = "r"
class = "mesh"
pw_id = 200
path = ["a", "b"]
: taken
vplsnet 1
> connect a b
session a b Initialized
session b a Initialized
said b a 000100200a000002000002000016000000010500000e000100b4000010000a0000010000
session b a OpenSent
> deliver b a 65535
said a b 000100200a000001000002000016000000010500000e000100b4000010000a0000020000
said a b 0001000e0a00000100000201000400000002
session a b OpenRec
> deliver a b 65535
said b a 0001000e0a00000200000201000400000002
session b a OpenRec
session b a Operational
said b a 000100320a0000020000040000280000000301000010808005080000000000000064010405dc0200000400000010896a000400000000
said b a 000100320a00000200000400002800000004010000108080050800000000000000c8010405dc0200000400000011896a000400000000
wire b w NoRemote
wire b v NoRemote
> deliver b a 65535
session a b Operational
said a b 000100320a0000010000040000280000000301000010808005080000000000000064010405dc02000004000fffff896a000400000000
wire a w NoRemote
wire a w up
> deliver a b 65535
wire b w up
end events=5 in=0 left=0 sent=0 dropped=0

= A wire is put off and on at one edge (RFC 5036 sections 3.5.10 and 3.5.11), and a failure is told (RFC 8077 section 6.3.2).
: back , "wire b w off", "settle 20", "wire b w off", "wire b w on", "settle 20", "status a w 6", "settle 20", "status a w 6"
: taken
vplsnet 1
> connect a b
session a b Initialized
session b a Initialized
said b a 000100200a000002000002000016000000010500000e000100b4000010000a0000010000
session b a OpenSent
> deliver b a 65535
said a b 000100200a000001000002000016000000010500000e000100b4000010000a0000020000
said a b 0001000e0a00000100000201000400000002
session a b OpenRec
> deliver a b 65535
said b a 0001000e0a00000200000201000400000002
session b a OpenRec
session b a Operational
said b a 000100320a0000020000040000280000000301000010808005080000000000000064010405dc0200000400000010896a000400000000
wire b w NoRemote
> deliver b a 65535
session a b Operational
said a b 000100320a0000010000040000280000000301000010808005080000000000000064010405dc0200000400000010896a000400000000
wire a w NoRemote
wire a w up
> deliver a b 65535
wire b w up
> wire b w off
said b a 000100260a00000200000402001c000000040100000c8080050400000000000000640200000400000010
wire b w NoLocal
> deliver b a 65535
said a b 000100260a00000100000403001c000000040100000c8080050400000000000000640200000400000010
wire a w NoRemote
> deliver a b 65535
> wire b w off
idle
> wire b w on
said b a 000100320a0000020000040000280000000501000010808005080000000000000064010405dc0200000400000011896a000400000000
wire b w up
> deliver b a 65535
wire a w up
> status a w 6
said a b 000100340a00000100000001002a000000050300000a00000028000000000000896a0004000000060100000c808005040000000000000064
wire a w LocalFault
> deliver a b 65535
wire b w RemoteFault
> status a w 6
idle
end events=14 in=0 left=0 sent=0 dropped=0

= 200 status messages of 56 octets each are on their way at once; after 4,097 octets the others are delivered too, and the far end hears all.
: piece , "status a w 6", "status a w 0"
: times 100
: back , "deliver a b 4097", "settle 20"
: room 40000
: entries 824
: long 34796
: ends
wire b w RemoteFault
wire b w up
end events=207 in=0 left=0 sent=0 dropped=0

"#;

#[test]
fn sets_pseudowires_up_and_ends_them(rt: HostRuntime) {
    plays(&rt, rt.alloc(), JOINED, ROWS);
}
