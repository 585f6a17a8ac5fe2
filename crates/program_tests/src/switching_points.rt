//! Whole replays over wires with switching points (RFC 6073): a broadcast over twelve segments, and what becomes of a wire whose
//! middle edge restarts, loses one of its two sessions, or passes a withdrawal of addresses on.

use crate::around::{REPLAY, plays};

// Every switching point gives the packet the label of the next one and takes one from its TTL (RFC 6073 section 4, RFC 3032 section 2.4.2).
const SEGMENTS: &str = r#"
= Up a spoke, over the mesh and down a spoke, of four segments each.
: front "connect a p3", "connect a q1", "connect b q3", "connect b r3", "connect x p1", "connect y r1", "connect p1 p2", "connect p2 p3", "connect q1 q2", "connect q2 q3", "connect r1 r2", "connect r2 r3", "settle 1000"
: back , "frame cx ffffffffffff0200000000010800", "flow 100"
: tables
edge = [
  { name = "a", address = "10.0.0.1" },
  { name = "b", address = "10.0.0.2" },
  { name = "x", address = "10.0.0.3" },
  { name = "y", address = "10.0.0.4" },
  { name = "p1", address = "10.0.0.5" },
  { name = "p2", address = "10.0.0.6" },
  { name = "p3", address = "10.0.0.7" },
  { name = "q1", address = "10.0.0.8" },
  { name = "q2", address = "10.0.0.9" },
  { name = "q3", address = "10.0.0.10" },
  { name = "r1", address = "10.0.0.11" },
  { name = "r2", address = "10.0.0.12" },
  { name = "r3", address = "10.0.0.13" },
]
service = [{ name = "s" }]
circuit = [{ name = "cx", edge = "x", service = "s" }, { name = "cy", edge = "y", service = "s" }]
wire = [
  { name = "xa", service = "s", class = "spoke", pw_id = 201, path = ["x", "p1", "p2", "p3", "a"] },
  { name = "yb", service = "s", class = "spoke", pw_id = 202, path = ["y", "r1", "r2", "r3", "b"] },
  { name = "ab", service = "s", class = "mesh", pw_id = 100, path = ["a", "q1", "q2", "q3", "b"] },
]
: ends
> frame cx ffffffffffff0200000000010800
in cx 1 ffffffffffff0200000000010800
sent 1 x p1 xa cx 1 1 000111ff00000000ffffffffffff0200000000010800
> arrive 1
sent 2 p1 p2 xa xa 1 2 000111fe00000000ffffffffffff0200000000010800
> arrive 2
sent 3 p2 p3 xa xa 1 3 000101fd00000000ffffffffffff0200000000010800
> arrive 3
sent 4 p3 a xa xa 1 4 000101fc00000000ffffffffffff0200000000010800
> arrive 4
sent 5 a q1 ab xa 1 5 000111ff00000000ffffffffffff0200000000010800
> arrive 5
sent 6 q1 q2 ab ab 1 6 000111fe00000000ffffffffffff0200000000010800
> arrive 6
sent 7 q2 q3 ab ab 1 7 000101fd00000000ffffffffffff0200000000010800
> arrive 7
sent 8 q3 b ab ab 1 8 000101fc00000000ffffffffffff0200000000010800
> arrive 8
sent 9 b r3 yb ab 1 9 000111ff00000000ffffffffffff0200000000010800
> arrive 9
sent 10 r3 r2 yb yb 1 10 000101fe00000000ffffffffffff0200000000010800
> arrive 10
sent 11 r2 r1 yb yb 1 11 000101fd00000000ffffffffffff0200000000010800
> arrive 11
sent 12 r1 y yb yb 1 12 000101fc00000000ffffffffffff0200000000010800
> arrive 12
left cy 1 12 ffffffffffff0200000000010800
end events=94 in=1 left=1 sent=12 dropped=0

= The same where the switching points pass three wires, and the answer.
: front "connect a o", "connect b n", "connect b o", "connect x m", "connect y n", "connect m n", "connect m o", "connect n o", "settle 1000"
: back , "frame cx ffffffffffff0200000000010800", "flow 100", "frame cy 0200000000010200000000020800", "flow 100"
: tables
edge = [
  { name = "a", address = "10.0.0.1" },
  { name = "b", address = "10.0.0.2" },
  { name = "x", address = "10.0.0.3" },
  { name = "y", address = "10.0.0.4" },
  { name = "m", address = "10.0.0.5" },
  { name = "n", address = "10.0.0.6" },
  { name = "o", address = "10.0.0.7" },
]
service = [{ name = "s" }]
circuit = [
  { name = "ca", edge = "a", service = "s" },
  { name = "cb", edge = "b", service = "s" },
  { name = "cx", edge = "x", service = "s" },
  { name = "cy", edge = "y", service = "s" },
]
wire = [
  { name = "xa", service = "s", class = "spoke", pw_id = 201, path = ["x", "m", "n", "o", "a"] },
  { name = "yb", service = "s", class = "spoke", pw_id = 202, path = ["y", "n", "m", "o", "b"] },
  { name = "ab", service = "s", class = "mesh", pw_id = 100, path = ["a", "o", "m", "n", "b"] },
]
: ends
> frame cx ffffffffffff0200000000010800
in cx 1 ffffffffffff0200000000010800
sent 1 x m xa cx 1 1 000151ff00000000ffffffffffff0200000000010800
> arrive 1
sent 2 m n xa xa 1 2 000151fe00000000ffffffffffff0200000000010800
> arrive 2
sent 3 n o xa xa 1 3 000141fd00000000ffffffffffff0200000000010800
> arrive 3
sent 4 o a xa xa 1 4 000101fc00000000ffffffffffff0200000000010800
> arrive 4
left ca 1 4 ffffffffffff0200000000010800
sent 5 a o ab xa 1 5 000131ff00000000ffffffffffff0200000000010800
> arrive 5
sent 6 o m ab ab 1 6 000121fe00000000ffffffffffff0200000000010800
> arrive 6
sent 7 m n ab ab 1 7 000111fd00000000ffffffffffff0200000000010800
> arrive 7
sent 8 n b ab ab 1 8 000101fc00000000ffffffffffff0200000000010800
> arrive 8
left cb 1 8 ffffffffffff0200000000010800
sent 9 b o yb ab 1 9 000121ff00000000ffffffffffff0200000000010800
> arrive 9
sent 10 o m yb yb 1 10 000111fe00000000ffffffffffff0200000000010800
> arrive 10
sent 11 m n yb yb 1 11 000101fd00000000ffffffffffff0200000000010800
> arrive 11
sent 12 n y yb yb 1 12 000101fc00000000ffffffffffff0200000000010800
> arrive 12
left cy 1 12 ffffffffffff0200000000010800
> frame cy 0200000000010200000000020800
in cy 2 0200000000010200000000020800
sent 13 y n yb cy 2 1 000121ff000000000200000000010200000000020800
> arrive 13
sent 14 n m yb yb 2 2 000131fe000000000200000000010200000000020800
> arrive 14
sent 15 m o yb yb 2 3 000101fd000000000200000000010200000000020800
> arrive 15
sent 16 o b yb yb 2 4 000111fc000000000200000000010200000000020800
> arrive 16
sent 17 b n ab yb 2 5 000131ff000000000200000000010200000000020800
> arrive 17
sent 18 n m ab ab 2 6 000141fe000000000200000000010200000000020800
> arrive 18
sent 19 m o ab ab 2 7 000111fd000000000200000000010200000000020800
> arrive 19
sent 20 o a ab ab 2 8 000111fc000000000200000000010200000000020800
> arrive 20
sent 21 a o xa ab 2 9 000151ff000000000200000000010200000000020800
> arrive 21
sent 22 o n xa xa 2 10 000141fe000000000200000000010200000000020800
> arrive 22
sent 23 n m xa xa 2 11 000101fd000000000200000000010200000000020800
> arrive 23
sent 24 m x xa xa 2 12 000101fc000000000200000000010200000000020800
> arrive 24
left cx 2 12 0200000000010200000000020800
end events=92 in=2 left=4 sent=24 dropped=0

= A wire that comes back to where it begins.
: tables
edge = [
  { name = "a", address = "10.0.0.1" },
  { name = "b", address = "10.0.0.2" },
  { name = "c", address = "10.0.0.3" },
]
service = [{ name = "s" }]
circuit = [{ name = "ca", edge = "a", service = "s" }, { name = "cc", edge = "c", service = "s" }]
wire = [{ name = "w", service = "s", class = "mesh", pw_id = 100, path = ["a", "b", "a"] }]
: told 5 vplsnet: scenario: Plan PathRepeats wire 1 path
"#;

// Three edges, and a mesh wire between the first and the last of them, with a circuit at each. Where the middle edge loses its session, it
// withdraws the label that it had told the first one, which has nothing to send by then, and tells another one once the session is up again
// (RFC 6073 section 7).
const MIDDLE: &str = r#"
: tables
edge = [
  { name = "a", address = "10.0.0.1" },
  { name = "b", address = "10.0.0.2" },
  { name = "c", address = "10.0.0.3" },
]
service = [{ name = "s" }]
circuit = [{ name = "ca", edge = "a", service = "s" }, { name = "cc", edge = "c", service = "s" }]
wire = [{ name = "w", service = "s", class = "mesh", pw_id = 100, path = ["a", "b", "c"] }]
= The middle edge restarts: its neighbours find their sessions ended, and the packet under way has a label that it does not give again.
: front "connect a b", "connect b c", "settle 1000"
: back , "frame ca ffffffffffff0200000000010800", "restart b", "arrive 1", "settle 1000", "connect a b", "connect b c", "settle 1000", "frame ca ffffffffffff0200000000010800", "flow 100"
: ends
> frame ca ffffffffffff0200000000010800
in ca 1 ffffffffffff0200000000010800
sent 1 a b w ca 1 1 000111ff00000000ffffffffffff0200000000010800
> restart b
> arrive 1
dropped b 1 NoLabel
> deliver b a 65535
session a b Ended:Closed
wire a w NoLocal
> deliver b c 65535
session c b Ended:Closed
wire c w NoLocal
> connect a b
session a b Initialized
session b a Initialized
said b a 000100200a000002000002000016000000010500000e000100b4000010000a0000010000
session b a OpenSent
> connect b c
session b c Initialized
session c b Initialized
said c b 000100200a000003000002000016000000010500000e000100b4000010000a0000020000
session c b OpenSent
> deliver b a 65535
said a b 000100200a000001000002000016000000010500000e000100b4000010000a0000020000
said a b 0001000e0a00000100000201000400000002
session a b OpenRec
> deliver a b 65535
said b a 0001000e0a00000200000201000400000002
session b a OpenRec
session b a Operational
> deliver b a 65535
session a b Operational
said a b 000100320a0000010000040000280000000301000010808005080000000000000064010405dc0200000400000011896a000400000000
wire a w NoRemote
> deliver a b 65535
> deliver c b 65535
said b c 000100200a000002000002000016000000010500000e000100b4000010000a0000030000
said b c 0001000e0a00000200000201000400000002
session b c OpenRec
> deliver b c 65535
said c b 0001000e0a00000300000201000400000002
session c b OpenRec
session c b Operational
said c b 000100320a0000030000040000280000000301000010808005080000000000000064010405dc0200000400000011896a000400000000
wire c w NoRemote
> deliver c b 65535
session b c Operational
said b c 000100480a00000200000400003e0000000301000010808005080000000000000064010405dc0200000400000012896a000400000000896d001201040000006403040a00000204040a000001
said b a 000100480a00000200000400003e0000000301000010808005080000000000000064010405dc0200000400000013896a000400000000896d001201040000006403040a00000204040a000003
> deliver b a 65535
wire a w up
> deliver b c 65535
wire c w up
> frame ca ffffffffffff0200000000010800
in ca 2 ffffffffffff0200000000010800
sent 2 a b w ca 2 1 000131ff00000000ffffffffffff0200000000010800
> arrive 2
sent 3 b c w w 2 2 000111fe00000000ffffffffffff0200000000010800
> arrive 3
left cc 2 2 ffffffffffff0200000000010800
end events=30 in=2 left=1 sent=3 dropped=1

= The middle edge loses its session with the last one.
: front "connect a b", "connect b c", "settle 1000"
: back , "lose b c", "frame ca ffffffffffff0200000000010800", "flow 1", "settle 1000", "connect b c", "settle 1000", "frame cc ffffffffffff0200000000010800", "flow 100"
: ends
> lose b c
session b c Ended:Closed
said b a 000100260a00000200000402001c000000040100000c8080050400000000000000640200000400000011
> frame ca ffffffffffff0200000000010800
in ca 1 ffffffffffff0200000000010800
sent 1 a b w ca 1 1 000111ff00000000ffffffffffff0200000000010800
> arrive 1
dropped b 1 NoLabel
> deliver b a 65535
said a b 000100260a00000100000403001c000000040100000c8080050400000000000000640200000400000011
wire a w NoRemote
> deliver a b 65535
> deliver b c 65535
session c b Ended:Closed
wire c w NoLocal
> connect b c
session b c Initialized
session c b Initialized
said c b 000100200a000003000002000016000000010500000e000100b4000010000a0000020000
session c b OpenSent
> deliver c b 65535
said b c 000100200a000002000002000016000000010500000e000100b4000010000a0000030000
said b c 0001000e0a00000200000201000400000002
session b c OpenRec
> deliver b c 65535
said c b 0001000e0a00000300000201000400000002
session c b OpenRec
session c b Operational
said c b 000100320a0000030000040000280000000301000010808005080000000000000064010405dc0200000400000011896a000400000000
wire c w NoRemote
> deliver c b 65535
session b c Operational
said b c 000100480a00000200000400003e0000000301000010808005080000000000000064010405dc0200000400000012896a000400000000896d001201040000006403040a00000204040a000001
said b a 000100480a00000200000400003e0000000501000010808005080000000000000064010405dc0200000400000013896a000400000000896d001201040000006403040a00000204040a000003
> deliver b a 65535
wire a w up
> deliver b c 65535
wire c w up
> frame cc ffffffffffff0200000000010800
in cc 2 ffffffffffff0200000000010800
sent 2 c b w cc 2 1 000121ff00000000ffffffffffff0200000000010800
> arrive 2
sent 3 b a w w 2 2 000101fe00000000ffffffffffff0200000000010800
> arrive 3
left ca 2 2 ffffffffffff0200000000010800
end events=26 in=2 left=1 sent=3 dropped=1

"#;

// A spoke edge with two spokes, each with a switching point of its own, and a circuit at each edge that ends them. Then the station is
// found by the other spoke.
const MOVES: &str = r#"
= The middle edges pass on the status of each spoke, and the withdrawals of addresses that follow it (RFC 6073 section 10, RFC 4762 section 6.2).
: front "connect a b", "connect a p", "connect b q", "connect x p", "connect x q", "settle 1000"
: back , "frame cx ffffffffffff0200000000010800", "flow 100", "priority x xb 5", "settle 1000", "frame ca 0200000000010200000000020800", "flow 100"
: tables
edge = [
  { name = "a", address = "10.0.0.1" },
  { name = "b", address = "10.0.0.2" },
  { name = "x", address = "10.0.0.3" },
  { name = "p", address = "10.0.0.4" },
  { name = "q", address = "10.0.0.5" },
]
service = [{ name = "s" }]
circuit = [
  { name = "ca", edge = "a", service = "s" },
  { name = "cb", edge = "b", service = "s" },
  { name = "cx", edge = "x", service = "s" },
]
wire = [
  { name = "ab", service = "s", class = "mesh", pw_id = 100, path = ["a", "b"] },
  { name = "xa", service = "s", class = "spoke", pw_id = 201, path = ["x", "p", "a"], priority = 10 },
  { name = "xb", service = "s", class = "spoke", pw_id = 202, path = ["x", "q", "b"], priority = 20 },
]
: ends
> priority x xb 5
said x p 000100340a00000300000001002a000000060300000a00000028000000000000896a0004000000200100000c8080050400000000000000c9
said x q 000100340a00000300000001002a000000040300000a00000028000000000000896a0004000000000100000c8080050400000000000000ca
said x q 000100220a000003000003010018000000050100000c8080050400000000000000ca84040000
wire x xa Standby
wire x xb up
> deliver x p 65535
said p a 000100340a00000400000001002a000000060300000a00000028000000000000896a0004000000200100000c8080050400000000000000c9
> deliver x q 65535
said q b 000100340a00000500000001002a000000040300000a00000028000000000000896a0004000000000100000c8080050400000000000000ca
said q b 000100220a000005000003010018000000050100000c8080050400000000000000ca84040000
> deliver p a 65535
wire a xa Standby
> deliver q b 65535
wire b xb up
said b a 000100220a000002000003010018000000040100000c80800504000000000000006484040000
> deliver b a 65535
said a p 000100220a000001000003010018000000040100000c8080050400000000000000c984040000
> deliver a p 65535
said p x 000100220a000004000003010018000000040100000c8080050400000000000000c984040000
> deliver p x 65535
> frame ca 0200000000010200000000020800
in ca 2 0200000000010200000000020800
sent 4 a b ab ca 2 1 000101ff000000000200000000010200000000020800
> arrive 4
left cb 2 1 0200000000010200000000020800
sent 5 b q xb ab 2 2 000111ff000000000200000000010200000000020800
> arrive 5
sent 6 q x xb xb 2 3 000111fe000000000200000000010200000000020800
> arrive 6
left cx 2 3 0200000000010200000000020800
end events=44 in=2 left=4 sent=6 dropped=0

"#;

#[test]
fn crosses_twelve_segments(rt: HostRuntime) {
    plays(&rt, rt.alloc(), REPLAY, SEGMENTS);
}

#[test]
fn loses_its_middle_edge(rt: HostRuntime) {
    plays(&rt, rt.alloc(), REPLAY, MIDDLE);
    plays(&rt, rt.alloc(), REPLAY, MOVES);
}
