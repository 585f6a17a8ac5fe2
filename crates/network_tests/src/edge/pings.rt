//! An edge pings the far end of a pseudowire, and answers its pings (RFC 5085). Octets were worked out by hand.

use crate::edge::proposals::{KEEP_ALIVE_OF_A, PROPOSAL_OF_A};
use crate::edge::pseudowires::UP;
use crate::edge::steps::{Step, plays};
use crate::scenarios::{A, B, BY_ALERT, BY_EXPIRY, BY_HEADER};
use net_base::DropCause;
use std::alloc::Global;
use std::process::Abort;

// What A tells of its end: label 16, and each type of control channel, by a ping as the test.
const WITH_WORD: &str =
    "000100360a0000010000 0400002c00000003 01000014 8080050c 00000000 00000064 010405dc 0c040701 \
     0200000400000010 896a000400000000";

const WITHOUT_WORD: &str =
    "000100360a0000010000 0400002c00000003 01000014 8000050c 00000000 00000064 010405dc 0c040701 \
     0200000400000010 896a000400000000";

// The same without a control channel, and with a router alert alone.
const WITH_NO_CHANNEL: &str =
    "000100320a0000010000 0400002800000003 01000010 80800508 00000000 00000064 010405dc \
     0200000400000010 896a000400000000";

const WITH_ALERT_ALONE: &str =
    "000100360a0000010000 0400002c00000003 01000014 8080050c 00000000 00000064 010405dc 0c040201 \
     0200000400000010 896a000400000000";

// In each control channel: the first ping of B, A's answer, the first ping of A, and B's answer.
const PING_BY_HEADER: &str =
    "000101ff 10000021 4500001c00000000ff01a7de 0a000002 0a000001 0800f79a00640001";

const PONG_BY_HEADER: &str =
    "000101ff 10000021 4500001c00000000ff01a7de 0a000001 0a000002 0000ff9a00640001";

const PINGED_BY_HEADER: &str =
    "000101ff 10000021 4500001c00000000ff01a7de 0a000001 0a000002 0800f79a00640001";

const ANSWER_BY_HEADER: &str =
    "000101ff 10000021 4500001c00000000ff01a7de 0a000002 0a000001 0000ff9a00640001";

const PING_BY_ALERT: &str =
    "000010ff 000101ff 4500001c00000000ff01a7de 0a000002 0a000001 0800f79a00640001";

const PONG_BY_ALERT: &str =
    "000010ff 000101ff 4500001c00000000ff01a7de 0a000001 0a000002 0000ff9a00640001";

const PINGED_BY_ALERT: &str =
    "000010ff 000101ff 4500001c00000000ff01a7de 0a000001 0a000002 0800f79a00640001";

const ANSWER_BY_ALERT: &str =
    "000010ff 000101ff 4500001c00000000ff01a7de 0a000002 0a000001 0000ff9a00640001";

const PING_BY_EXPIRY: &str = "00010101 4500001c00000000ff01a7de 0a000002 0a000001 0800f79a00640001";

const PONG_BY_EXPIRY: &str = "00010101 4500001c00000000ff01a7de 0a000001 0a000002 0000ff9a00640001";

const PINGED_BY_EXPIRY: &str =
    "00010101 4500001c00000000ff01a7de 0a000001 0a000002 0800f79a00640001";

const ANSWER_BY_EXPIRY: &str =
    "00010101 4500001c00000000ff01a7de 0a000002 0a000001 0000ff9a00640001";

// The second ping of B.
const SECOND_PING: &str =
    "000101ff 10000021 4500001c00000000ff01a7de 0a000002 0a000001 0800f79900640002";

// The last number that B's pings have, the one behind it, and A's answer to that.
const PING_65535: &str =
    "000101ff 10000021 4500001c00000000ff01a7de 0a000002 0a000001 0800f79b0064ffff";

const PING_0: &str =
    "000101ff 10000021 4500001c00000000ff01a7de 0a000002 0a000001 0800f79b00640000";

const PONG_0: &str =
    "000101ff 10000021 4500001c00000000ff01a7de 0a000001 0a000002 0000ff9b00640000";

// The first ping of B once it has restarted, to the label 17 of A's next session; and what A tells in it.
const NEXT_WITH_WORD: &str =
    "000100360a0000010000 0400002c00000003 01000014 8080050c 00000000 00000064 010405dc 0c040701 \
     0200000400000011 896a000400000000";

const FIRST_PING_AGAIN: &str =
    "000111ff 10000021 4500001c00000000ff01a7de 0a000002 0a000001 0800f79a00640001";

// A ping of another stack: a service class, an identification, not to be fragmented, TTL 17, and one octet of data; octets follow it
// in the packet. The answer is the whole of it and no more.
const ODD_PING: &str =
    "00010111 10ff0021 45b8001d12344000110142f2 0a000001 0a000002 0800969b0064ffff61 0000";

const ODD_ANSWER: &str =
    "000101ff 10000021 45b8001d12344000ff0154f1 0a000002 0a000001 00009e9b0064ffff61";

// A ping of A to 10.0.0.9, and the answer, which is from there.
const PINGED_ELSEWHERE: &str =
    "000101ff 10000021 4500001c00000000ff01a7d7 0a000001 0a000009 0800f79a00640001";

const ANSWER_FROM_ELSEWHERE: &str =
    "000101ff 10000021 4500001c00000000ff01a7d7 0a000009 0a000001 0000ff9a00640001";

// A tells that its circuit does not forward, and a broadcast of A.
const STATUS_OF_A: &str =
    "000100340a0000010000 0001002a00000004 0300000a00000028000000000000 896a000400000001 \
     0100000c808005040000000000000064";

const FRAME_OF_A: &str = "000101ff 00000000 ffffffffffff 020000000001 0800";

const ANSWERS_BY_HEADER: [Step; 13] = [
    Step::Ping(0),
    Step::Idle,
    Step::Hears(A, WITH_WORD),
    Step::Ping(0),
    Step::Echoed(A, 0),
    Step::Sent(3, A, PING_BY_HEADER),
    Step::Packet(PONG_BY_HEADER),
    Step::Ponged(0, 1),
    Step::Calls(4),
    Step::Packet(PINGED_BY_HEADER),
    Step::Echoed(A, 0),
    Step::Sent(4, A, ANSWER_BY_HEADER),
    Step::Learned(0),
];

const ANSWERS_BY_ALERT: [Step; 10] = [
    Step::Hears(A, WITHOUT_WORD),
    Step::Ping(0),
    Step::Echoed(A, 0),
    Step::Sent(3, A, PING_BY_ALERT),
    Step::Packet(PONG_BY_ALERT),
    Step::Ponged(0, 1),
    Step::Packet(PINGED_BY_ALERT),
    Step::Echoed(A, 0),
    Step::Sent(4, A, ANSWER_BY_ALERT),
    Step::Learned(0),
];

const ANSWERS_BY_EXPIRY: [Step; 10] = [
    Step::Hears(A, WITHOUT_WORD),
    Step::Ping(0),
    Step::Echoed(A, 0),
    Step::Sent(3, A, PING_BY_EXPIRY),
    Step::Packet(PONG_BY_EXPIRY),
    Step::Ponged(0, 1),
    Step::Packet(PINGED_BY_EXPIRY),
    Step::Echoed(A, 0),
    Step::Sent(4, A, ANSWER_BY_EXPIRY),
    Step::Learned(0),
];

const ANSWERS_THE_WHOLE: [Step; 4] = [
    Step::Hears(A, WITH_WORD),
    Step::Packet(ODD_PING),
    Step::Echoed(A, 0),
    Step::Sent(3, A, ODD_ANSWER),
];

// Whom the ping is for is not looked at: it came by the wire.
const ANSWERS_FOR_ANOTHER: [Step; 4] = [
    Step::Hears(A, WITH_WORD),
    Step::Packet(PINGED_ELSEWHERE),
    Step::Echoed(A, 0),
    Step::Sent(3, A, ANSWER_FROM_ELSEWHERE),
];

// An end that carries no frames answers; what has no octets behind its label is no channel, and no frame either.
const ANSWERS_WHILE_DOWN: [Step; 11] = [
    Step::Packet("000101ff"),
    Step::Dropped(DropCause::Down),
    Step::Hears(A, WITH_WORD),
    Step::Hears(A, STATUS_OF_A),
    Step::Packet(FRAME_OF_A),
    Step::Dropped(DropCause::Down),
    Step::Packet("000101ff"),
    Step::Dropped(DropCause::Short),
    Step::Packet(PINGED_BY_HEADER),
    Step::Echoed(A, 0),
    Step::Sent(3, A, ANSWER_BY_HEADER),
];

// Behind the number 65535 comes 0.
const COUNTS_TO_65535: [Step; 8] = [
    Step::Hears(A, WITH_WORD),
    Step::Pings(0, 65_535),
    Step::Sent(3, A, PING_BY_HEADER),
    Step::Sent(65_537, A, PING_65535),
    Step::Ping(0),
    Step::Sent(65_538, A, PING_0),
    Step::Packet(PONG_0),
    Step::Ponged(0, 0),
];

const COUNTS_ITS_PINGS: [Step; 17] = [
    Step::Hears(A, WITH_WORD),
    Step::Ping(0),
    Step::Packet(PINGED_BY_HEADER),
    Step::Ping(0),
    Step::Sent(3, A, PING_BY_HEADER),
    Step::Sent(5, A, SECOND_PING),
    Step::Restart,
    Step::Ping(0),
    Step::Idle,
    Step::Connected(A),
    Step::Hears(A, PROPOSAL_OF_A),
    Step::Hears(A, KEEP_ALIVE_OF_A),
    Step::Hears(A, NEXT_WITH_WORD),
    Step::Bound(17),
    Step::Ping(0),
    Step::Echoed(A, 0),
    Step::Sent(9, A, FIRST_PING_AGAIN),
];

// A ping that the link does not take has used up its number.
const LOSES_A_PING: [Step; 5] = [
    Step::Hears(A, WITH_WORD),
    Step::Ping(0),
    Step::Dropped(DropCause::LinkFault),
    Step::Ping(0),
    Step::Sent(4, A, SECOND_PING),
];

const ASKS_NOTHING_WHILE_OFF: [Step; 6] = [
    Step::Hears(A, WITH_WORD),
    Step::Wire(0, false),
    Step::Ping(0),
    Step::Idle,
    Step::Ping(1),
    Step::Idle,
];

const ASKS_NOTHING_WITHOUT_A_CHANNEL: [Step; 5] = [
    Step::Hears(A, WITH_NO_CHANNEL),
    Step::Ping(0),
    Step::Idle,
    Step::Packet(PINGED_BY_HEADER),
    Step::Dropped(DropCause::NotOffered),
];

const ASKS_NOTHING_IN_ANOTHER_CHANNEL: [Step; 5] = [
    Step::Hears(A, WITH_ALERT_ALONE),
    Step::Ping(0),
    Step::Idle,
    Step::Packet(PINGED_BY_ALERT),
    Step::Dropped(DropCause::NotOffered),
];

// No binding, no label, no last entry, and another type than the one that is picked.
const DROPS_WHAT_COMES_ELSEWHERE: [Step; 13] = [
    Step::Packet(PINGED_BY_HEADER),
    Step::Dropped(DropCause::Down),
    Step::Packet(PINGED_BY_ALERT),
    Step::Dropped(DropCause::NotOffered),
    Step::Hears(A, WITH_WORD),
    Step::Packet("000010ff 000111ff 4500001c00000000ff01a7de 0a000001 0a000002 0800f79a00640001"),
    Step::Dropped(DropCause::NoLabel),
    Step::Packet("000010ff 000100ff 4500001c00000000ff01a7de 0a000001 0a000002 0800f79a00640001"),
    Step::Dropped(DropCause::NotBottom),
    Step::Packet(PINGED_BY_EXPIRY),
    Step::Dropped(DropCause::BadNibble),
    Step::Packet(PINGED_BY_ALERT),
    Step::Dropped(DropCause::NotOffered),
];

// A version of 1, and three octets; channel type 0x0022.
const TELLS_FAULTS_OF_HEADERS: [Step; 7] = [
    Step::Hears(A, WITH_WORD),
    Step::Packet("000101ff 11000021 4500001c00000000ff01a7de 0a000001 0a000002 0800f79a00640001"),
    Step::Dropped(DropCause::Version),
    Step::Packet("000101ff 100000"),
    Step::Dropped(DropCause::Version),
    Step::Packet("000101ff 10000022 4500001c00000000ff01a7de 0a000001 0a000002 0800f79a00640001"),
    Step::Dropped(DropCause::Channel),
];

// Six words of header; a fragment; UDP; 27 octets; an octet more than there is.
const TELLS_FAULTS_OF_PACKETS: [Step; 11] = [
    Step::Hears(A, WITH_WORD),
    Step::Packet("000101ff 10000021 4600001c00000000ff01a7de 0a000001 0a000002 0800f79a00640001"),
    Step::Dropped(DropCause::Ip),
    Step::Packet("000101ff 10000021 4500001c00002000ff01a7de 0a000001 0a000002 0800f79a00640001"),
    Step::Dropped(DropCause::Ip),
    Step::Packet("000101ff 10000021 4500001c00000000ff11a7de 0a000001 0a000002 0800f79a00640001"),
    Step::Dropped(DropCause::Ip),
    Step::Packet("000101ff 10000021 4500001b00000000ff01a7de 0a000001 0a000002 0800f79a00640001"),
    Step::Dropped(DropCause::Ip),
    Step::Packet("000101ff 10000021 4500001d00000000ff01a7de 0a000001 0a000002 0800f79a00640001"),
    Step::Dropped(DropCause::Ip),
];

// A checksum of the header, and one of the message; type 3, code 1, and identifier 101.
const TELLS_FAULTS_OF_MESSAGES: [Step; 11] = [
    Step::Hears(A, WITH_WORD),
    Step::Packet("000101ff 10000021 4500001c00000000ff01a7df 0a000001 0a000002 0800f79a00640001"),
    Step::Dropped(DropCause::Checksum),
    Step::Packet("000101ff 10000021 4500001c00000000ff01a7de 0a000001 0a000002 0800f79b00640001"),
    Step::Dropped(DropCause::Checksum),
    Step::Packet("000101ff 10000021 4500001c00000000ff01a7de 0a000001 0a000002 0300fc9a00640001"),
    Step::Dropped(DropCause::Icmp),
    Step::Packet("000101ff 10000021 4500001c00000000ff01a7de 0a000001 0a000002 0801f79900640001"),
    Step::Dropped(DropCause::Icmp),
    Step::Packet("000101ff 10000021 4500001c00000000ff01a7de 0a000001 0a000002 0800f79900650001"),
    Step::Dropped(DropCause::Icmp),
];

// A frame with TTL 255 is none of the channel; a router alert is not the type that is picked.
const LETS_FRAMES_THROUGH: [Step; 6] = [
    Step::Hears(A, WITHOUT_WORD),
    Step::Packet("000101ff ffffffffffff 020000000001 0800"),
    Step::Gives(0),
    Step::Learned(1),
    Step::Packet(PINGED_BY_ALERT),
    Step::Dropped(DropCause::NotOffered),
];

// The edge with the larger address, whose session is up, does steps; the call of its link with this number fails.
fn plays_up(rt: &impl Abort, alloc: Global, pieces: &[&str], fails: u64, steps: &[Step]) {
    plays(rt, alloc, pieces, B, fails, &UP, steps);
}

#[test]
fn pings_and_answers_in_each_channel(rt: HostRuntime) {
    let alloc = rt.alloc();
    plays_up(&rt, alloc, BY_HEADER, 0, &ANSWERS_BY_HEADER);
    plays_up(&rt, alloc, BY_ALERT, 0, &ANSWERS_BY_ALERT);
    plays_up(&rt, alloc, BY_EXPIRY, 0, &ANSWERS_BY_EXPIRY);
    plays_up(&rt, alloc, BY_HEADER, 0, &ANSWERS_THE_WHOLE);
    plays_up(&rt, alloc, BY_HEADER, 0, &ANSWERS_FOR_ANOTHER);
    plays_up(&rt, alloc, BY_HEADER, 0, &ANSWERS_WHILE_DOWN);
    plays_up(&rt, alloc, BY_HEADER, 0, &COUNTS_ITS_PINGS);
    plays_up(&rt, alloc, BY_HEADER, 4, &LOSES_A_PING);
}

#[test]
fn counts_pings_from_65535_to_0(rt: HostRuntime) {
    plays_up(&rt, rt.alloc(), BY_HEADER, 0, &COUNTS_TO_65535);
}

#[test]
fn asks_nothing_where_no_channel_is_picked(rt: HostRuntime) {
    let alloc = rt.alloc();
    plays_up(&rt, alloc, BY_HEADER, 0, &ASKS_NOTHING_WHILE_OFF);
    plays_up(&rt, alloc, BY_HEADER, 0, &ASKS_NOTHING_WITHOUT_A_CHANNEL);
    plays_up(&rt, alloc, BY_HEADER, 0, &ASKS_NOTHING_IN_ANOTHER_CHANNEL);
}

#[test]
fn tells_each_fault_of_an_echo_packet(rt: HostRuntime) {
    let alloc = rt.alloc();
    plays_up(&rt, alloc, BY_HEADER, 0, &DROPS_WHAT_COMES_ELSEWHERE);
    plays_up(&rt, alloc, BY_HEADER, 0, &TELLS_FAULTS_OF_HEADERS);
    plays_up(&rt, alloc, BY_HEADER, 0, &TELLS_FAULTS_OF_PACKETS);
    plays_up(&rt, alloc, BY_HEADER, 0, &TELLS_FAULTS_OF_MESSAGES);
    plays_up(&rt, alloc, BY_EXPIRY, 0, &LETS_FRAMES_THROUGH);
}
