//! Messages that are read, in the words of their type.

use crate::rows::{About, reads_as};

// A message of another type, with its U bit, and messages that are not processed, with the first reason.
const UNPROCESSED: &str = "
    0001000f0a0000010000 be01000500000008 ff = Other { id: 8, u: true, kind: 15873 }
    A KeepAlive with an unknown TLV.
    000100160a0000010000 0201000c00000002 3f000000 3f010000 = Unprocessed { id: 2, kind: 513, why: UnknownTlv(16128) }
    Address without its list.
    0001000e0a0000010000 0300000400000009 = Unprocessed { id: 9, kind: 768, why: Missing(AddressList) }
    A Label Mapping with a second FEC element behind the first.
    0001003a0a0000010000 0400003000000003 01000018 80800508 00000000 00000064 010405dc8080050000000007 02000004 00000010 896a0004 00000000 = Unprocessed { id: 3, kind: 1024, why: UnknownFec(128) }
    An IPv4 prefix with the label 3, in a Label Mapping, in a Label Withdraw, and with a MAC list.
    000100220a0000010000 0400001800000003 01000008 020001200a000003 02000004 00000003 = Unprocessed { id: 3, kind: 1024, why: UnknownFec(2) }
    0001001a0a0000010000 0402001000000004 01000008 020001200a000003 = Unprocessed { id: 4, kind: 1026, why: UnknownFec(2) }
    0001001e0a0000010000 0301001400000005 01000008 020001200a000003 84040000 = Unprocessed { id: 5, kind: 769, why: UnknownFec(2) }
    A Label Mapping of the group 7, one without a label, and one of an IPv4 prefix without a label.
    000100220a0000010000 0400001800000003 01000008 8080050000000007 02000004 00000010 = Unprocessed { id: 3, kind: 1024, why: Missing(Fec) }
    0001001e0a0000010000 0400001400000003 0100000c 80000504 00000000 00000064 = Unprocessed { id: 3, kind: 1024, why: Missing(Label) }
    0001001a0a0000010000 0400001000000003 01000008 020001200a000003 = Unprocessed { id: 3, kind: 1024, why: Missing(Label) }
    An Address Withdraw with a FEC alone.
    0001001a0a0000010000 0301001000000005 01000008 8080050000000007 = Unprocessed { id: 5, kind: 769, why: Missing(AddressList) }
    A Label Request without a FEC, with an unknown TLV.
    000100120a0000010000 0401000800000008 3f000000 = Unprocessed { id: 8, kind: 1025, why: UnknownTlv(16128) }
    A Label Mapping of an IPv4 prefix, with an unknown TLV.
    000100260a0000010000 0400001c00000003 01000008 020001200a000003 02000004 00000003 3f000000 = Unprocessed { id: 3, kind: 1024, why: UnknownTlv(16128) }
";

// Messages with what is passed over.
const PASSED_OVER: &str = "
    A Hello with a configuration sequence number.
    0001001e0a0000010000 0100001400000004 04020004 00000001 04000004 000f8000 = Hello { id: 4, hold: 15, targeted: true, request: false, transport: None }
    A Notification of data 6 with an extended status, a returned PDU and a returned message.
    0001002d0a0000010000 0001002300000003 0300000a 00000006000000000000 03010004 00000000 03020001 00 03030000 = Notification { id: 3, status: StatusCode { fatal: false, forward: false, code: 6, message: 0, kind: 0 }, pw_status: None, fec: None }
    An Initialization of 10.0.0.2:0 with two TLVs of other features.
    000100340a0000020000 0200002a00000001 0500000e 000100b4000010000a0000010000 85030008 0000000000000000 05010004 00000000 = Pdu { id: LdpId { router: Addr([10, 0, 0, 2]), space: 0 }, messages: List { items: [Initialization { id: 1, params: SessionParams { version: 1, keepalive: 180, demand: false, loops: false, limit: 0, max_pdu: 4096, receiver: LdpId { router: Addr([10, 0, 0, 1]), space: 0 } } }] } }
    Messages of pseudowires with more than an edge writes, or in another order.
    A mapping with a parameter of an unknown type, and one with a hop count, a path vector and the Message ID of a request.
    000100340a0000010000 0400002a00000003 01000012 8080050a 00000000 00000064 010405dc7f02 02000004 00000010 896a0004 00000000 = LabelMapping { id: 3, fec: PwFec { c: true, kind: 5, group: 0, pw_id: Some(100), params: IfParams { mtu: Some(1500), description: '', vlan: None, vccv: None } }, label: Label { number: 16 }, pw_status: Some(PwStatus(0)), points: Points { held: None } }
    000100430a0000010000 0400003900000003 01030001 05 01040000 06000004 00000009 01000010 80800508 00000000 00000064 010405dc 02000004 00000010 896a0004 00000000 = LabelMapping { id: 3, fec: PwFec { c: true, kind: 5, group: 0, pw_id: Some(100), params: IfParams { mtu: Some(1500), description: '', vlan: None, vccv: None } }, label: Label { number: 16 }, pw_status: Some(PwStatus(0)), points: Points { held: None } }
    A release with a status.
    000100300a0000010000 0403002600000007 01000008 8080050000000007 0300000a 00000028000000000000 02000004 00000010 = LabelRelease { id: 7, fec: PwFec { c: true, kind: 5, group: 7, pw_id: None, params: IfParams { mtu: None, description: '', vlan: None, vccv: None } }, label: Some(Label { number: 16 }) }
    A request with a hop count, twice, and a path vector.
    000100280a0000010000 0401001e00000008 01030001 05 01030001 06 01040000 01000008 8080050000000007 = LabelRequest { id: 8, fec: PwFec { c: true, kind: 5, group: 7, pw_id: None, params: IfParams { mtu: None, description: '', vlan: None, vccv: None } } }
    A withdrawal of two MAC addresses of group 7, with its TLVs in another order.
    0001002a0a0000010000 0301002000000006 8404000c 020000000001020000000002 01000008 8080050000000007 = AddressWithdraw { id: 6, addresses: None, fec: Some(PwFec { c: true, kind: 5, group: 7, pw_id: None, params: IfParams { mtu: None, description: '', vlan: None, vccv: None } }), macs: Some(List { items: [Mac([2, 0, 0, 0, 0, 1]), Mac([2, 0, 0, 0, 0, 2])] }) }
    The F bit of a known TLV, and both bits of another one, are not looked at.
    000100260a0000010000 0402001c00000004 4100000c 80800504 00000000 00000064 c2000004 00000010 = LabelWithdraw { id: 4, fec: PwFec { c: true, kind: 5, group: 0, pw_id: Some(100), params: IfParams { mtu: None, description: '', vlan: None, vccv: None } }, label: Some(Label { number: 16 }) }
";

#[test]
fn reads_messages(rt: HostRuntime) {
    reads_as(&rt, rt.alloc(), About::OneWay, UNPROCESSED, 13);
    reads_as(&rt, rt.alloc(), About::Pdus, PASSED_OVER, 9);
}
