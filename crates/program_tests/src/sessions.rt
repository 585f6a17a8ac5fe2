//! Whole replays of sessions between edges.

use crate::around::{REPLAY, plays};

const CONNECTS: &str = r#"
= The wire of two edges is off at both of them, and they connect: each PDU is whole (RFC 5036 sections 2.5.3, 3.5.3 and 3.5.4).
: front "wire a w off", "wire b w off", "connect a b", "settle 20"
: tables
[[edge]]
name = "a"
address = "10.0.0.1"
[[edge]]
name = "b"
address = "10.0.0.2"
[[service]]
name = "s"
[[circuit]]
name = "ca"
edge = "a"
service = "s"
[[wire]]
name = "w"
service = "s"
pw_id = 100
path = ["a", "b"]
class = "mesh"
: taken
vplsnet 1
> wire a w off
> wire b w off
> connect a b
session a b Initialized
session b a Initialized
said b a 000100200a000002000002000016000000010500000e000100b4000010000a0000010000
session b a OpenSent
> deliver b a 65535
said a b 000100200a000001000002000016000000010500000e000100b4000010000a0000020000
said a b 0001000e0a00000100000201000400000002
session a b OpenRec
> deliver a b 65535
said b a 0001000e0a00000200000201000400000002
session b a OpenRec
session b a Operational
> deliver b a 65535
session a b Operational
end events=6 in=0 left=0 sent=0 dropped=0

"#;

#[test]
fn brings_a_session_up(rt: HostRuntime) {
    plays(&rt, rt.alloc(), REPLAY, CONNECTS);
}
