//! Captures that are played: what is refused of them, and at which place, and what enters of the others.

use crate::around::{ONE_EDGE, REPLAY, plays};

// Nothing is written, and no run began.
const REFUSALS: &str = r#"
: front "play c1 k.pcap"
: k.pcap d4c3b2a1020004000000000000000000ffff00000100000001000000000000003c0000003c00000000000000000000000000000000000000000000000000000000000000000000000000000000000000000000000000000000000000000000000000000001000000000000003c0000003c00000000000000000000000000000000000000000000000000000000000000000000000000
: entries 0
= The second of two records of 60 octets is cut off.
: told 6 vplsnet: capture k.pcap: Truncated 116 Data
= A header of 20 octets.
: k.pcap d4c3b2a1020004000000000000000000ffff0000
: told 6 vplsnet: capture k.pcap: Truncated 20 Network
= No octets.
: k.pcap
: told 6 vplsnet: capture k.pcap: Truncated 0 Magic
= Another magic.
: k.pcap 0a0d0d0a020004000000000000000000ffff000001000000
: told 6 vplsnet: capture k.pcap: Magic 0
= Another version.
: k.pcap d4c3b2a1020005000000000000000000ffff000001000000
: told 6 vplsnet: capture k.pcap: Version 4
= Another network.
: k.pcap d4c3b2a1020004000000000000000000ffff000002000000
: told 6 vplsnet: capture k.pcap: Network 20
= A record of 262,145 octets.
: k.pcap d4c3b2a1020004000000000000000000ffff00000100000000000000000000000100040001000400
: told 6 vplsnet: capture k.pcap: Length 32
= A capture that is not there.
: front "play c1 x.pcap"
: told 3 vplsnet: read fault
= The second capture is at fault: the first one was read, and nothing of it entered.
: front "play c1 g.pcap", "play c2 k.pcap"
: g.pcap d4c3b2a1020004000000000000000000ffff00000100000000000000000000000e0000000e000000ffffffffffff0200000000010800
: told 6 vplsnet: capture k.pcap: Truncated 116 Data
= The second capture is not there.
: front "play c1 g.pcap", "play c2 x.pcap"
: g.pcap d4c3b2a1020004000000000000000000ffff00000100000000000000000000000e0000000e000000ffffffffffff0200000000010800
: told 3 vplsnet: read fault
= The first fault is told, whatever stands behind it.
: front "play c1 g.pcap", "play c2 k.pcap"
: g.pcap 0a0d0d0a020004000000000000000000ffff000001000000
: told 6 vplsnet: capture g.pcap: Magic 0
= A circuit that is not there is told before any capture is read.
: words capture f c4
: told 5 vplsnet: no circuit c4
= What is played is not read where the words name a stream.
: words decode f
: told 6 vplsnet: stream: 0 Version 0
"#;

const PLAYS: &str = "
: front \"play c1 k.pcap\"
: k.pcap d4c3b2a1020004000000000000000000ffff00000100000000000000000000000e0000000e000000ffffffffffff0200000000010800
= The frame of the broadcast.
: taken
vplsnet 1
> frame c1 ffffffffffff0200000000010800
in c1 1 ffffffffffff0200000000010800
left c2 1 0 ffffffffffff0200000000010800
left c3 1 0 ffffffffffff0200000000010800
end events=1 in=1 left=2 sent=0 dropped=0

= A header alone.
: k.pcap d4c3b2a1020004000000000000000000ffff000001000000
: taken
vplsnet 1
end events=0 in=0 left=0 sent=0 dropped=0

= A frame of no octets has no octets to tell, and is too short.
: k.pcap d4c3b2a1020004000000000000000000ffff00000100000000000000000000000000000000000000
: taken
vplsnet 1
> frame c1 \nin c1 1 \ndropped e 1 Short
end events=1 in=1 left=0 sent=0 dropped=1

= A capture that is played twice.
: front \"play c1 k.pcap\", \"tick\", \"play c2 k.pcap\"
: taken
vplsnet 1
> frame c1 ffffffffffff0200000000010800
in c1 1 ffffffffffff0200000000010800
left c2 1 0 ffffffffffff0200000000010800
left c3 1 0 ffffffffffff0200000000010800
> tick
> frame c2 ffffffffffff0200000000010800
in c2 2 ffffffffffff0200000000010800
left c1 2 0 ffffffffffff0200000000010800
left c3 2 0 ffffffffffff0200000000010800
end events=3 in=2 left=4 sent=0 dropped=0

";

// Three core edges in a full mesh, with a circuit each. A request of ARP (RFC 826) stands in a capture with its high octets first and times
// in nanoseconds, and the answer, with padding, in one with its low octets first.
const ARP: &str = r#"
: tables
[[edge]]
name = "a"
address = "10.0.0.1"
[[edge]]
name = "b"
address = "10.0.0.2"
[[edge]]
name = "c"
address = "10.0.0.3"
[[service]]
name = "s"
[[circuit]]
name = "ca"
edge = "a"
service = "s"
[[circuit]]
name = "cb"
edge = "b"
service = "s"
[[circuit]]
name = "cc"
edge = "c"
service = "s"
[[wire]]
name = "ab"
service = "s"
class = "mesh"
path = ["a", "b"]
pw_id = 1
[[wire]]
name = "ac"
service = "s"
class = "mesh"
path = ["a", "c"]
pw_id = 2
[[wire]]
name = "bc"
service = "s"
class = "mesh"
path = ["b", "c"]
pw_id = 3
= The request leaves the other two circuits, and the answer the one of the station that asked.
: front "connect a b", "connect a c", "connect b c", "settle 1000", "play ca q.pcap", "flow 10", "play cb r.pcap", "flow 10"
: q.pcap a1b23c4d000200040000000000000000000400000000000100000007000000010000002a0000002affffffffffff020000000001080600010800060400010200000000010a0001010000000000000a000102
: r.pcap d4c3b2a1020004000000000000000000ffff00000100000007000000010000003c0000003c000000020000000001020000000002080600010800060400020200000000020a0001020200000000010a000101000000000000000000000000000000000000
: ends
> frame ca ffffffffffff020000000001080600010800060400010200000000010a0001010000000000000a000102
in ca 1 ffffffffffff020000000001080600010800060400010200000000010a0001010000000000000a000102
sent 1 a b ab ca 1 1 000101ff00000000ffffffffffff020000000001080600010800060400010200000000010a0001010000000000000a000102
sent 2 a c ac ca 1 1 000101ff00000000ffffffffffff020000000001080600010800060400010200000000010a0001010000000000000a000102
> arrive 1
left cb 1 1 ffffffffffff020000000001080600010800060400010200000000010a0001010000000000000a000102
> arrive 2
left cc 1 1 ffffffffffff020000000001080600010800060400010200000000010a0001010000000000000a000102
> frame cb 020000000001020000000002080600010800060400020200000000020a0001020200000000010a000101000000000000000000000000000000000000
in cb 2 020000000001020000000002080600010800060400020200000000020a0001020200000000010a000101000000000000000000000000000000000000
sent 3 b a ab cb 2 1 000101ff00000000020000000001020000000002080600010800060400020200000000020a0001020200000000010a000101000000000000000000000000000000000000
> arrive 3
left ca 2 1 020000000001020000000002080600010800060400020200000000020a0001020200000000010a000101000000000000000000000000000000000000
end events=20 in=2 left=3 sent=3 dropped=0

"#;

#[test]
fn refuses_the_first_capture_at_fault(rt: HostRuntime) {
    plays(&rt, rt.alloc(), ONE_EDGE, REFUSALS);
}

#[test]
fn lets_the_frames_of_captures_enter(rt: HostRuntime) {
    plays(&rt, rt.alloc(), ONE_EDGE, PLAYS);
    plays(&rt, rt.alloc(), REPLAY, ARP);
}
