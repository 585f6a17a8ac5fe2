//! Which messages can be written, of those that are not read.

use crate::steps::label;
use crate::words::holds;
use ldp_grammar::{Message, StatusCode, is_writable};
use net_base::{List, Text};
use pw_tlvs::{IfParams, Points, PwFec, is_writable_fec};
use std::process::Abort;

// A PWid element of this PW type, with a PW ID, an MTU and a VLAN ID where they are told, and whether it can be written.
#[derive(Clone, Copy)]
struct Row(u16, Option<u32>, Option<u16>, Option<u16>, bool);

const ROWS: [Row; 9] = [
    // A PW type of 15 bits and of 16.
    Row(0x7fff, None, None, None, true),
    Row(0x7fff, Some(100), None, Some(4095), true),
    Row(0x8000, None, None, None, false),
    Row(0x8000, Some(100), None, None, false),
    // A VLAN ID of 12 bits and of 13.
    Row(4, Some(100), None, Some(4095), true),
    Row(4, Some(100), None, Some(4096), false),
    // An MTU with a PW ID and without, and a group alone.
    Row(5, Some(100), Some(1500), None, true),
    Row(5, None, Some(1500), None, false),
    Row(5, None, None, None, true),
];

// The element of a row.
fn element(rt: &impl Abort, row: Row, c: bool, group: u32) -> PwFec {
    PwFec {
        c,
        kind: row.0,
        group,
        pw_id: row.1,
        params: IfParams {
            mtu: row.2,
            description: Text::read(&[]).expect(rt, "a text"),
            vlan: row.3,
            vccv: None,
        },
    }
}

// A Label Request of an element.
fn request(fec: PwFec) -> Message {
    Message::LabelRequest { id: 8, fec }
}

// The message can be written or not.
fn is_writable_as(rt: &impl Abort, message: &Message, can: bool) {
    holds(rt, is_writable(message) == can, "writable or not");
}

// A Label Mapping of an element.
fn mapping(rt: &impl Abort, fec: PwFec) -> Message {
    Message::LabelMapping {
        id: 1,
        fec,
        label: label(rt, 16),
        pw_status: None,
        points: Points::empty(),
    }
}

// The element can be written or not, and so can a Label Request. A Label Mapping needs a PW ID too.
fn agrees(rt: &impl Abort, fec: PwFec, can: bool) {
    holds(rt, is_writable_fec(&fec) == can, "writable or not");
    is_writable_as(rt, &request(fec), can);
    is_writable_as(rt, &mapping(rt, fec), can && fec.pw_id.is_some());
}

#[test]
fn tells_which_fecs_can_be_written(rt: HostRuntime) {
    for row in ROWS.as_slice() {
        agrees(&rt, element(&rt, *row, false, 0), row.4);
        agrees(&rt, element(&rt, *row, true, 7), row.4);
    }
}

// Status data of 31 bits.
const LONG_DATA: StatusCode = StatusCode {
    fatal: false,
    forward: false,
    code: 0x4000_0000,
    message: 0,
    kind: 0,
};

// A Notification of it.
const LONG_NOTIFICATION: Message = Message::Notification {
    id: 1,
    status: LONG_DATA,
    pw_status: None,
    fec: None,
};

// A withdrawal of an element without a MAC list.
fn withdrawal(fec: Option<PwFec>) -> Message {
    Message::AddressWithdraw {
        id: 1,
        addresses: None,
        fec,
        macs: None,
    }
}

// An Address of these octets.
fn address(octets: List<u8>) -> Message {
    Message::Address {
        id: 1,
        family: 1,
        octets,
    }
}

// A withdrawal without a MAC list, of an element of a group; a part of an address; and a Notification of a status that is too long.
#[test]
fn writes_no_half_messages(rt: HostRuntime) {
    let fec = Some(element(&rt, ROWS[8], true, 7));
    let octets = List::from_bytes(rt.alloc(), &[10, 0, 0]).expect(&rt, "memory");
    is_writable_as(&rt, &withdrawal(fec), false);
    is_writable_as(&rt, &address(octets), false);
    is_writable_as(&rt, &LONG_NOTIFICATION, false);
}

// A message has this Message ID and type.
fn is_of(rt: &impl Abort, message: &Message, id: u32, kind: u16) {
    holds(rt, message.id() == id, "the Message ID");
    holds(rt, message.message_type() == kind, "the type");
}

// Of a message whose description is empty.
#[test]
fn tells_the_id_and_the_type(rt: HostRuntime) {
    let fec = element(&rt, ROWS[8], true, 7);
    holds(&rt, fec.params.description.is_empty(), "no description");
    is_of(&rt, &request(fec), 8, 0x0401);
}
