//! The packets of one ping in each control channel, and a packet for each fault. Their octets were worked out by hand.
ghost use Rattle.vccv_channel.specs.Reading.{IsRequest};

use crate::steps::label;
use crate::words::holds;
use net_base::Addr;
use std::process::Abort;
use vccv_channel::{Cc, Echo, Ping, VccvFault, answer, pick, read_echo, request};

const NEAR: Addr = Addr([10, 0, 0, 1]);

const FAR: Addr = Addr([10, 0, 0, 2]);

const PING: Ping = Ping {
    from: NEAR,
    to: FAR,
    number: 100,
    sequence: 1,
};

const HEADER_STACK: [u8; 8] = [0x00, 0x01, 0x01, 0xff, 0x10, 0x00, 0x00, 0x21];

const ALERT_STACK: [u8; 8] = [0x00, 0x00, 0x10, 0xff, 0x00, 0x01, 0x01, 0xff];

const EXPIRY_STACK: [u8; 4] = [0x00, 0x01, 0x01, 0x01];

const REQUEST: [u8; 28] = [
    0x45, 0x00, 0x00, 0x1c, 0x00, 0x00, 0x00, 0x00, 0xff, 0x01, 0xa7, 0xde, 10, 0, 0, 1, 10, 0, 0,
    2, 0x08, 0x00, 0xf7, 0x9a, 0x00, 0x64, 0x00, 0x01,
];

const ANSWER: [u8; 28] = [
    0x45, 0x00, 0x00, 0x1c, 0x00, 0x00, 0x00, 0x00, 0xff, 0x01, 0xa7, 0xde, 10, 0, 0, 2, 10, 0, 0,
    1, 0x00, 0x00, 0xff, 0x9a, 0x00, 0x64, 0x00, 0x01,
];

// A request of another stack: a service class, an identification, not to be fragmented, TTL 17, and one octet of data.
const ODD_REQUEST: [u8; 29] = [
    0x45, 0xb8, 0x00, 0x1d, 0x12, 0x34, 0x40, 0x00, 0x11, 0x01, 0x42, 0xf2, 10, 0, 0, 1, 10, 0, 0,
    2, 0x08, 0x00, 0x96, 0x9b, 0x00, 0x64, 0xff, 0xff, 0x61,
];

const ODD_STACK: [u8; 4] = [0x00, 0x01, 0x11, 0x04];

const ODD_ANSWER: [u8; 29] = [
    0x45, 0xb8, 0x00, 0x1d, 0x12, 0x34, 0x40, 0x00, 0xff, 0x01, 0x54, 0xf1, 10, 0, 0, 2, 10, 0, 0,
    1, 0x00, 0x00, 0x9e, 0x9b, 0x00, 0x64, 0xff, 0xff, 0x61,
];

// What an end told of its control channels, and of its control channels and its tests: the channel that is picked, where the
// control word is used or not, behind so many switching points.
type Pick = (Option<u8>, Option<(u8, u8)>, bool, usize, Option<Cc>);

const PICKS: [Pick; 9] = [
    (Some(7), Some((7, 1)), true, 0, Some(Cc::Header)),
    (Some(6), Some((7, 1)), true, 0, None),
    (Some(7), Some((7, 1)), false, 0, Some(Cc::Alert)),
    (Some(7), Some((7, 1)), false, 1, Some(Cc::Expiry)),
    (Some(7), Some((5, 1)), false, 0, Some(Cc::Expiry)),
    (Some(7), Some((2, 1)), false, 1, None),
    (Some(7), Some((7, 2)), true, 0, None),
    (None, Some((7, 1)), true, 0, None),
    (Some(7), None, true, 0, None),
];

// Each channel is picked.
fn are_picked(rt: &impl Abort, rows: &[Pick]) {
    for row in rows {
        let (local, remote, word, points, want) = *row;
        holds(
            rt,
            pick(local, remote, word, points) == want,
            "the channel of a row",
        );
    }
}

#[test]
fn picks_what_both_offer(rt: HostRuntime) {
    are_picked(&rt, PICKS.as_slice());
}

// Whether these octets stand at a place.
fn stands(out: &[u8], place: usize, octets: &[u8]) -> bool {
    match out.get(place..) {
        Some(rest) => rest.starts_with(octets),
        None => false,
    }
}

// What was written is a label stack and a packet behind it, and no octet more.
fn is_written(rt: &impl Abort, out: &[u8], length: usize, stack: &[u8], packet: &[u8]) {
    holds(rt, stands(out, 0, stack), "the label stack");
    holds(rt, stands(out, stack.len(), packet), "the packet");
    holds(rt, stands(out, length, &[0xee]), "no octet more");
}

// The ping in a channel has this stack and so many octets.
fn asks(rt: &impl Abort, channel: Cc, stack: &[u8], length: usize) {
    let label = label(rt, 16);
    let mut out = [0xeeu8; 64];
    holds(
        rt,
        request(channel, label, 0, PING, &mut out) == length,
        "so many octets",
    );
    is_written(rt, &out, length, stack, &REQUEST);
}

#[test]
fn a_ping_in_each_channel(rt: HostRuntime) {
    asks(&rt, Cc::Header, &HEADER_STACK, 36);
    asks(&rt, Cc::Alert, &ALERT_STACK, 36);
    asks(&rt, Cc::Expiry, &EXPIRY_STACK, 32);
}

// A packet is the request with this sequence number.
fn is_request(rt: &impl Abort, packet: &[u8], sequence: u16)
    ensures { IsRequest packet.now }
{
    holds(rt, packet.len() <= 1500, "1,500 octets at most");
    let asked = Echo::Request {
        from: NEAR,
        to: FAR,
        sequence,
        length: packet.len() as u16,
    };
    holds(
        rt,
        read_echo(packet, false, 100) == Ok(asked),
        "the request",
    );
}

// A request and its sequence number; its answer in a channel on a label, with service class bits, which has so many octets.
struct Answered {
    request: &'static [u8],
    sequence: u16,
    channel: Cc,
    label: u32,
    points: u8,
    stack: &'static [u8],
    packet: &'static [u8],
    length: usize,
}

// A request has its answer.
fn is_answered(rt: &impl Abort, answered: &Answered) {
    let label = label(rt, answered.label);
    let request = answered.request;
    let mut out = [0xeeu8; 64];
    is_request(rt, request, answered.sequence);
    holds(rt, request.len() <= 52, "52 octets at most");
    holds(rt, answered.points <= 3, "three points at most");
    let length = answer(answered.channel, label, answered.points, request, &mut out);
    holds(rt, length == answered.length, "so many octets");
    is_written(rt, &out, length, answered.stack, answered.packet);
}

// A request in each channel, and that of another stack.
const ANSWERED: [Answered; 4] = [
    Answered {
        request: &REQUEST,
        sequence: 1,
        channel: Cc::Header,
        label: 16,
        points: 0,
        stack: &HEADER_STACK,
        packet: &ANSWER,
        length: 36,
    },
    Answered {
        request: &REQUEST,
        sequence: 1,
        channel: Cc::Alert,
        label: 16,
        points: 0,
        stack: &ALERT_STACK,
        packet: &ANSWER,
        length: 36,
    },
    Answered {
        request: &REQUEST,
        sequence: 1,
        channel: Cc::Expiry,
        label: 16,
        points: 0,
        stack: &EXPIRY_STACK,
        packet: &ANSWER,
        length: 32,
    },
    Answered {
        request: &ODD_REQUEST,
        sequence: 0xffff,
        channel: Cc::Expiry,
        label: 17,
        points: 3,
        stack: &ODD_STACK,
        packet: &ODD_ANSWER,
        length: 33,
    },
];

#[test]
fn the_answer_in_each_channel(rt: HostRuntime) {
    for answered in ANSWERED.as_slice() {
        is_answered(&rt, answered);
    }
}

// The answer behind its label is read again.
fn is_read(rt: &impl Abort, packet: &[u8], sequence: u16) {
    let label = label(rt, 16);
    let mut out = [0xeeu8; 64];
    is_request(rt, packet, sequence);
    holds(rt, packet.len() <= 52, "52 octets at most");
    answer(Cc::Header, label, 0, packet, &mut out);
    holds(
        rt,
        read_echo(&out[4..], true, 100) == Ok(Echo::Answer { sequence }),
        "the answer",
    );
}

#[test]
fn reads_the_answer(rt: HostRuntime) {
    is_read(&rt, &REQUEST, 1);
}

// Two places behind the label, each with the octet that stands there in place of its own, and the first fault.
type Change = (usize, u8, usize, u8, VccvFault);

const CHANGES: [Change; 13] = [
    (0x00, 0x11, 0x03, 0x57, VccvFault::Version),
    (0x03, 0x57, 0x04, 0x46, VccvFault::Channel),
    (0x04, 0x46, 0x0e, 0xa8, VccvFault::Ip),
    (0x0a, 0x20, 0x0e, 0x87, VccvFault::Ip),
    (0x0b, 0x01, 0x0f, 0xdd, VccvFault::Ip),
    (0x0d, 0x11, 0x0f, 0xce, VccvFault::Ip),
    (0x07, 0x1b, 0x0f, 0xdf, VccvFault::Ip),
    (0x07, 0x1d, 0x0f, 0xdd, VccvFault::Ip),
    (0x0e, 0xa8, 0x18, 0x0d, VccvFault::Checksum),
    (0x1a, 0xf8, 0x18, 0x08, VccvFault::Checksum),
    (0x0c, 0xfe, 0x1a, 0xf7, VccvFault::Checksum),
    (0x18, 0x0d, 0x1a, 0xf2, VccvFault::Icmp),
    (0x19, 0x01, 0x1b, 0x99, VccvFault::Icmp),
];

// Puts an octet to a place.
fn put(rt: &impl Abort, octets: &mut [u8], place: usize, octet: u8) {
    holds(rt, place < octets.len(), "a place");
    octets[place] = octet;
}

// The ping, as it stands behind its label.
fn payload() -> [u8; 32] {
    let mut payload = [0u8; 32];
    payload[..4].copy_from_slice(&HEADER_STACK[4..]);
    payload[4..].copy_from_slice(&REQUEST);
    payload
}

// The ping with these changes has this fault.
fn has_fault(rt: &impl Abort, change: &Change) {
    let (first, one, second, two, fault) = *change;
    let mut payload = payload();
    put(rt, &mut payload, first, one);
    put(rt, &mut payload, second, two);
    holds(
        rt,
        read_echo(&payload, true, 100) == Err(fault),
        "the first fault",
    );
}

#[test]
fn refuses_by_the_first_fault(rt: HostRuntime) {
    for change in CHANGES.as_slice() {
        has_fault(&rt, change);
    }
}

// A request of this total length, with a header checksum of these octets.
fn read_long(total: u16, low: u8) -> Result<Echo, VccvFault> {
    let mut packet = [0u8; 1501];
    packet[..28].copy_from_slice(&REQUEST);
    packet[2] = 0x05;
    packet[3] = (total % 256) as u8;
    packet[10] = 0xa2;
    packet[11] = low;
    read_echo(&packet, false, 100)
}

#[test]
fn reads_packets_of_1500_octets(rt: HostRuntime) {
    holds(&rt, read_long(1500, 0x1e).is_ok(), "1,500 octets");
    holds(
        &rt,
        read_long(1501, 0x1d) == Err(VccvFault::Ip),
        "1,501 octets",
    );
}

// The answer of identifier and sequence number 0, with these octets as its checksum.
fn read_zeros(octet: u8) -> Result<Echo, VccvFault> {
    let mut packet = ANSWER;
    packet[22] = octet;
    packet[23] = octet;
    packet[25] = 0;
    packet[27] = 0;
    read_echo(&packet, false, 0)
}

#[test]
fn a_sum_of_no_bits_is_not_all_ones(rt: HostRuntime) {
    holds(
        &rt,
        read_zeros(0xff) == Ok(Echo::Answer { sequence: 0 }),
        "all ones",
    );
    holds(&rt, read_zeros(0x00) == Err(VccvFault::Checksum), "no bits");
}

#[test]
fn each_fault_is_a_cause(rt: HostRuntime) {
    holds(
        &rt,
        VccvFault::NotOffered.cause() == net_base::DropCause::NotOffered,
        "the cause",
    );
}
