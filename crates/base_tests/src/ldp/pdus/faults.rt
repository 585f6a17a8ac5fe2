//! One PDU for each fault, with its place and its field.

use crate::rows::{About, reads_as};
use crate::words::{holds, says};
use ldp_codec::{DecodeFault, decode_pdu};
use net_base::Field;

// Faults of headers, messages and TLVs, and then of pseudowires.
const FAULTS: &str = "
    No octets.
    = PduLength { at: 2 }
    One octet.
    00 = PduLength { at: 2 }
    Another version.
    0002 = Version { at: 0 }
    Another version and a wrong length.
    0002000d = Version { at: 0 }
    Below the least length.
    0001000d = PduLength { at: 2 }
    Above the maximum.
    00011001 = PduLength { at: 2 }
    One octet behind the PDU.
    0001000e0a0000010000 0201000400000001 00 = PduLength { at: 2 }
    One octet fewer than the PDU Length says.
    0001000e0a0000010000 02010004000000 = PduLength { at: 2 }
    One octet behind a message.
    0001000f0a0000010000 0201000400000001 00 = MessageLength { at: 18 }
    Message Length 3.
    0001000e0a0000010000 0201000300000001 = MessageLength { at: 12 }
    Message Length past the PDU.
    0001000e0a0000010000 0201000500000001 = MessageLength { at: 12 }
    One octet behind a Message ID.
    0001000f0a0000010000 0201000500000001 3f = TlvLength { at: 18 }
    One octet behind a TLV.
    000100170a0000010000 0100000d00000001 04000004 000f8000 04 = TlvLength { at: 26 }
    A TLV past its message.
    000100130a0000010000 0201000900000001 3f000002 00 = TlvLength { at: 20 }
    A TLV past its message, within the PDU.
    0001001a0a0000010000 0201000800000001 3f000008 0201000400000002 = TlvLength { at: 20 }
    A status of 9 octets.
    0001001b0a0000010000 0001001100000001 03000009 000000000000000000 = TlvValue { at: 20, field: Status }
    Hello parameters of 3 octets.
    000100150a0000010000 0100000b00000001 04000003 000000 = TlvValue { at: 20, field: Hello }
    A transport address of 5 octets.
    0001001f0a0000010000 0100001500000001 04000004 00000000 04010005 0000000000 = TlvValue { at: 28, field: Transport }
    Session parameters of 13 octets.
    0001001f0a0000010000 0200001500000001 0500000d 00000000000000000000000000 = TlvValue { at: 20, field: Session }
    Addresses without a family.
    000100130a0000010000 0300000900000001 01010001 00 = TlvValue { at: 20, field: AddressList }
    A part of an address.
    000100170a0000010000 0301000d00000001 01010005 00010a0000 = TlvValue { at: 20, field: AddressList }
    Two statuses.
    0001002a0a0000010000 0001002000000001 0300000a 00000000000000000000 0300000a 00000000000000000000 = Repeated { at: 32, field: Status }
    Two Common Hello Parameters.
    0001001e0a0000010000 0100001400000001 04000004 000f8000 04000004 000f8000 = Repeated { at: 26, field: Hello }
    Two transport addresses.
    000100260a0000010000 0100001c00000001 04000004 000f8000 04010004 0a000001 04010004 0a000001 = Repeated { at: 34, field: Transport }
    Two Common Session Parameters.
    000100320a0000010000 0200002800000001 0500000e 000100b4000010000a0000020000 0500000e 000100b4000010000a0000020000 = Repeated { at: 36, field: Session }
    Two address lists.
    0001001a0a0000010000 0300001000000001 01010002 0001 01010002 0001 = Repeated { at: 24, field: AddressList }
    The second status is repeated before it ends past its message.
    000100200a0000010000 0001001600000001 0300000a 00000000000000000000 0300000a = Repeated { at: 32, field: Status }
    A fault in the second message.
    0001001a0a0000010000 0201000400000001 0201000800000002 3f000001 = TlvLength { at: 28 }
    Faults of a FEC.
    A FEC without octets.
    000100120a0000010000 0402000800000004 01000000 = TlvValue { at: 20, field: Fec }
    A PWid element of 7 octets.
    000100190a0000010000 0402000f00000004 01000007 80800500000000 = TlvValue { at: 20, field: Fec }
    An information length of 3.
    0001001d0a0000010000 0402001300000004 0100000b 8000050300000000000000 = TlvValue { at: 25, field: InfoLength }
    An information length past the end.
    000100320a0000010000 0400002800000003 01000010 80800514 00000000 00000064 010405dc 02000004 00000010 896a0004 00000000 = TlvValue { at: 25, field: InfoLength }
    One last octet in place of a parameter.
    0001001f0a0000010000 0402001500000004 0100000d 80000505 00000000 00000064 01 = TlvValue { at: 34, field: Parameter }
    A parameter of length 1.
    000100340a0000010000 0400002a00000003 01000012 8080050a 00000000 00000064 010405dc7f01 02000004 00000010 896a0004 00000000 = TlvValue { at: 39, field: Parameter }
    A parameter past the end.
    000100220a0000010000 0402001800000004 01000010 80000508 00000000 00000064 010505dc = TlvValue { at: 35, field: Parameter }
    An MTU of length 3.
    000100210a0000010000 0402001700000004 0100000f 80000507 00000000 00000064 010305 = TlvValue { at: 35, field: Mtu }
    A description of 81 octets.
    000100710a0000010000 0402006700000004 0100005f 80000557 00000000 00000064 0353616161616161616161616161616161616161616161616161616161616161616161616161616161616161616161616161616161616161616161616161616161616161616161616161616161616161616161 = TlvValue { at: 35, field: Description }
    A VLAN ID of length 3.
    000100210a0000010000 0402001700000004 0100000f 80000507 00000000 00000064 060300 = TlvValue { at: 35, field: Vlan }
    The VLAN ID 4096.
    000100220a0000010000 0402001800000004 01000010 80000508 00000000 00000064 06041000 = TlvValue { at: 36, field: Vlan }
    VCCV types of length 5.
    000100230a0000010000 0402001900000004 01000011 80000509 00000000 00000064 0c05010203 = TlvValue { at: 35, field: Vccv }
    A second MTU.
    000100260a0000010000 0402001c00000004 01000014 8000050c 00000000 00000064 010405dc010405dc = Repeated { at: 38, field: Mtu }
    A second description.
    000100220a0000010000 0402001800000004 01000010 80000508 00000000 00000064 03020302 = Repeated { at: 36, field: Description }
    A second VLAN ID.
    000100260a0000010000 0402001c00000004 01000014 8000050c 00000000 00000064 0604000106040001 = Repeated { at: 38, field: Vlan }
    A second time VCCV types.
    000100260a0000010000 0402001c00000004 01000014 8000050c 00000000 00000064 0c0401020c040102 = Repeated { at: 38, field: Vccv }
    Faults of the other TLVs of pseudowires.
    A label of 3 octets.
    000100210a0000010000 0402001700000004 01000008 8080050000000007 02000003 000010 = TlvValue { at: 32, field: Label }
    The label 15.
    000100220a0000010000 0402001800000004 01000008 8080050000000007 02000004 0000000f = TlvValue { at: 34, field: Label }
    The label 1048576.
    000100220a0000010000 0402001800000004 01000008 8080050000000007 02000004 00100000 = TlvValue { at: 34, field: Label }
    The label 15 before a foreign FEC is not looked at, but a status of 3 octets is.
    000100220a0000010000 0400001800000003 02000004 0000000f 896a0003 000000 01000001 02 = TlvValue { at: 28, field: PwStatus }
    A label of 3 octets behind a foreign FEC.
    0001001a0a0000010000 0400001000000003 01000001 02 02000003 000010 = TlvValue { at: 25, field: Label }
    The label 15 before a FEC that is at fault itself.
    0001001a0a0000010000 0400001000000003 02000004 0000000f 01000000 = TlvValue { at: 22, field: Label }
    The label 15 before a foreign FEC that ends past its message.
    0001001b0a0000010000 0400001100000003 02000004 0000000f 01000002 02 = TlvValue { at: 22, field: Label }
    A PW status of 3 octets.
    000100230a0000010000 0001001900000003 0300000a 00000028000000000000 896a0003 000000 = TlvValue { at: 34, field: PwStatus }
    Five octets of MAC addresses.
    000100170a0000010000 0301000d00000005 84040005 0200000000 = TlvValue { at: 20, field: MacList }
    The Message ID of a request in 3 octets.
    000100210a0000010000 0404001700000005 01000008 8080050000000007 06000003 000001 = TlvValue { at: 32, field: RequestId }
    A part of a switching point past the end.
    0001002c0a0000010000 0400002200000003 0100000c 80000504 00000000 00000064 02000004 00000010 896d0002 0104 = TlvValue { at: 46, field: Point }
    One last octet in place of a part.
    0001002b0a0000010000 0400002100000003 0100000c 80000504 00000000 00000064 02000004 00000010 896d0001 01 = TlvValue { at: 46, field: Point }
    A PW ID of 3 octets.
    0001002f0a0000010000 0400002500000003 0100000c 80000504 00000000 00000064 02000004 00000010 896d0005 0103000064 = TlvValue { at: 47, field: Point }
    A second PW ID.
    000100360a0000010000 0400002c00000003 0100000c 80000504 00000000 00000064 02000004 00000010 896d000c 010400000064010400000064 = Repeated { at: 52, field: Point }
    A fourth switching point.
    000100360a0000010000 0400002c00000003 0100000c 80000504 00000000 00000064 02000004 00000010 896d0000 896d0000 896d0000 896d0000 = Repeated { at: 54, field: Point }
    A second FEC.
    000100260a0000010000 0402001c00000004 01000008 8080050000000007 01000008 8080050000000007 = Repeated { at: 30, field: Fec }
    A second label.
    0001002a0a0000010000 0402002000000004 01000008 8080050000000007 02000004 00000010 02000004 00000010 = Repeated { at: 38, field: Label }
    A second PW status.
    0001002c0a0000010000 0001002200000003 0300000a 00000028000000000000 096a0004 00000000 896a0004 00000000 = Repeated { at: 40, field: PwStatus }
    A second MAC list.
    000100160a0000010000 0301000c00000005 84040000 84040000 = Repeated { at: 22, field: MacList }
    A second Message ID of a request.
    0001002a0a0000010000 0404002000000005 01000008 8080050000000007 06000004 00000000 06000004 00000000 = Repeated { at: 38, field: RequestId }
";

#[test]
fn keeps_to_the_maximum(rt: HostRuntime) {
    let octets = [0u8, 1, 1, 1];
    let fault = decode_pdu(rt.alloc(), &octets, 256).err();
    let wanted = Some(DecodeFault::PduLength { at: 2 });
    holds(&rt, fault == wanted, "a wrong PDU Length");
}

#[test]
fn tells_a_fault_in_words(rt: HostRuntime) {
    let fault = DecodeFault::Repeated {
        at: 32,
        field: Field::Status,
    };
    says(&rt, rt.alloc(), &fault, "a repeated TLV or part at 32");
}

#[test]
fn names_the_first_fault(rt: HostRuntime) {
    reads_as(&rt, rt.alloc(), About::Pdus, FAULTS, 64);
}
