//! Messages that were worked out by hand, both ways.

use crate::rows::{About, reads_as};

// Messages of sessions. A Notification of a message of type 0x0201 with ID 5, fatal, of data 0x0a; a Hello with hold time 15 and
// the T bit; an Initialization as an edge writes it; the address 10.0.0.1; and a withdrawal of three octets of the family 2.
const MESSAGES: &str = "
    0001001c0a0000010000 0001001200000003 0300000a 8000000a000000050201 = Notification { id: 3, status: StatusCode { fatal: true, forward: false, code: 10, message: 5, kind: 513 }, pw_status: None, fec: None }
    0001001e0a0000010000 0100001400000004 04000004 000f8000 04010004 0a000001 = Hello { id: 4, hold: 15, targeted: true, request: false, transport: Some(Addr([10, 0, 0, 1])) }
    0001000e0a0000010000 0201000400000001 = KeepAlive { id: 1 }
    000100200a0000010000 0200001600000002 0500000e 000100b4000010000a0000020000 = Initialization { id: 2, params: SessionParams { version: 1, keepalive: 180, demand: false, loops: false, limit: 0, max_pdu: 4096, receiver: LdpId { router: Addr([10, 0, 0, 2]), space: 0 } } }
    000100180a0000010000 0300000e00000006 01010006 00010a000001 = Address { id: 6, family: 1, octets: List { items: [10, 0, 0, 1] } }
    000100170a0000010000 0301000d00000007 01010005 0002010203 = AddressWithdraw { id: 7, addresses: Some(AddressList { family: 2, octets: List { items: [1, 2, 3] } }), fec: None, macs: None }
    Messages of pseudowires.
    A mapping: C bit, raw, PW ID 100, MTU 1500, label 16, status 0.
    000100320a0000010000 0400002800000003 01000010 80800508 00000000 00000064 010405dc 02000004 00000010 896a0004 00000000 = LabelMapping { id: 3, fec: PwFec { c: true, kind: 5, group: 0, pw_id: Some(100), params: IfParams { mtu: Some(1500), description: '', vlan: None, vccv: None } }, label: Label { number: 16 }, pw_status: Some(PwStatus(0)), points: Points { held: None } }
    The mapping through a switching point with the PW ID 100, 10.0.0.2, which had it from 10.0.0.3.
    000100480a0000010000 0400003e00000003 01000010 80800508 00000000 00000064 010405dc 02000004 00000010 896a0004 00000000 896d0012 01040000006403040a00000204040a000003 = LabelMapping { id: 3, fec: PwFec { c: true, kind: 5, group: 0, pw_id: Some(100), params: IfParams { mtu: Some(1500), description: '', vlan: None, vccv: None } }, label: Label { number: 16 }, pw_status: Some(PwStatus(0)), points: Points { held: One(Point { pw_id: Some(100), local: Some(Addr([10, 0, 0, 2])), remote: Some(Addr([10, 0, 0, 3])) }) } }
    A withdrawal of the labels of group 7.
    0001001a0a0000010000 0402001000000004 01000008 8080050000000007 = LabelWithdraw { id: 4, fec: PwFec { c: true, kind: 5, group: 7, pw_id: None, params: IfParams { mtu: None, description: '', vlan: None, vccv: None } }, label: None }
    A release of the label 16 of group 7.
    000100220a0000010000 0403001800000007 01000008 8080050000000007 02000004 00000010 = LabelRelease { id: 7, fec: PwFec { c: true, kind: 5, group: 7, pw_id: None, params: IfParams { mtu: None, description: '', vlan: None, vccv: None } }, label: Some(Label { number: 16 }) }
    A request of group 7.
    0001001a0a0000010000 0401001000000008 01000008 8080050000000007 = LabelRequest { id: 8, fec: PwFec { c: true, kind: 5, group: 7, pw_id: None, params: IfParams { mtu: None, description: '', vlan: None, vccv: None } } }
    An abort of the request with Message ID 8.
    000100220a0000010000 0404001800000009 01000008 8080050000000007 06000004 00000008 = LabelAbort { id: 9, fec: PwFec { c: true, kind: 5, group: 7, pw_id: None, params: IfParams { mtu: None, description: '', vlan: None, vccv: None } }, request: 8 }
    A Notification of data 0x28: the PW status 1 of group 7.
    000100300a0000010000 000100260000000a 0300000a 00000028000000000000 896a0004 00000001 01000008 8080050000000007 = Notification { id: 10, status: StatusCode { fatal: false, forward: false, code: 40, message: 0, kind: 0 }, pw_status: Some(PwStatus(1)), fec: Some(PwFec { c: true, kind: 5, group: 7, pw_id: None, params: IfParams { mtu: None, description: '', vlan: None, vccv: None } }) }
    An Address Withdraw of all that was learned on the pseudowire 202.
    000100220a0000010000 0301001800000005 0100000c 80800504 00000000 000000ca 84040000 = AddressWithdraw { id: 5, addresses: None, fec: Some(PwFec { c: true, kind: 5, group: 0, pw_id: Some(202), params: IfParams { mtu: None, description: '', vlan: None, vccv: None } }), macs: Some(List { items: [] }) }
    An Address Withdraw of two MAC addresses of group 7, and one of an IPv4 address, and of a MAC address of group 7.
    0001002a0a0000010000 0301002000000006 01000008 8080050000000007 8404000c 020000000001020000000002 = AddressWithdraw { id: 6, addresses: None, fec: Some(PwFec { c: true, kind: 5, group: 7, pw_id: None, params: IfParams { mtu: None, description: '', vlan: None, vccv: None } }), macs: Some(List { items: [Mac([2, 0, 0, 0, 0, 1]), Mac([2, 0, 0, 0, 0, 2])] }) }
    0001002e0a0000010000 0301002400000006 01010006 00010a000001 01000008 8080050000000007 84040006 020000000001 = AddressWithdraw { id: 6, addresses: Some(AddressList { family: 1, octets: List { items: [10, 0, 0, 1] } }), fec: Some(PwFec { c: true, kind: 5, group: 7, pw_id: None, params: IfParams { mtu: None, description: '', vlan: None, vccv: None } }), macs: Some(List { items: [Mac([2, 0, 0, 0, 0, 1])] }) }
";

#[test]
fn reads_and_writes_messages(rt: HostRuntime) {
    reads_as(&rt, rt.alloc(), About::BothWays, MESSAGES, 16);
}
