//! Whole decodings, of octets that were worked out by hand from the layouts of the RFCs.

use crate::around::{lines_play, plays};

// A decoding of hexadecimal digits.
const DECODE: &str = "
: words decode f
: hexadecimal
: entries 0
";

const NOTHING: &str = "
= No octets.
";

// Messages of sessions and of addresses, and what is not processed.
const SESSION_ROWS: &str = "
    0001000e0a00000100000201000400000001 -> 0 KeepAlive id=1
    0001001c0a0000010000 0001001200000001 0300000a 80000010 00000001 0200 -> 0 Notification id=1 code=1/0/16/1/512
    0001001c0a0000010000 000100120000000a 0300000a 7fffffff ffffffff ffff -> 0 Notification id=10 code=0/1/1073741823/4294967295/65535
    0001001e0a0000010000 0100001400000007 04000004002dc000 040100040a000002 -> 0 Hello id=7 hold=45/1/1 transport=10.0.0.2
    000100160a0000010000 0100000c00000008 04000004ffff4000 -> 0 Hello id=8 hold=65535/0/1
    000100340a0000020000 0200002a00000001 0500000e000100b4000010000a0000010000 850300080000000000000000 0501000400000000 -> 0 Initialization id=1 session=1/180/0/0/0/4096/10.0.0.1:0
    000100200a0000010000 02000016ffffffff 0500000e0001000fc0050100c0a801ff0007 -> 0 Initialization id=4294967295 session=1/15/1/1/5/256/192.168.1.255:7
    000100180a0000010000 0300000e00000003 0101000600010a000001 -> 0 Address id=3 addresses=1/0a000001
    000100140a0000010000 0300000a00000003 010100020019 -> 0 Address id=3 addresses=25/
    000100180a0000010000 0301000e00000004 010100060001c0a801fe -> 0 AddressWithdraw id=4 addresses=1/c0a801fe
    0001000e0a0000010000 bf00000400000009 -> 0 Other id=9 type=16128
    000100160a0000010000 0201000c00000002 3f000000 3f010000 -> 0 Unprocessed id=2 type=513 why=UnknownTlv:16128
    0001000e0a0000010000 0001000400000005 -> 0 Unprocessed id=5 type=1 why=Missing:Status
";

// Label mappings, of which those with a wrong parameter are refused.
const MAPPING_ROWS: &str = "
    000100320a0000010000 0400002800000003 01000010 80800508 00000000 00000064 010405dc 0200000400000010 896a000400000000 -> 0 LabelMapping id=3 fec=1/5/0/100 mtu=1500 label=16 status=0
    A parameter that is not known is passed over.
    000100340a0000010000 0400002a00000003 01000012 8080050a 00000000 00000064 010405dc 7f02 0200000400000010 896a000400000000 -> 0 LabelMapping id=3 fec=1/5/0/100 mtu=1500 label=16 status=0
    000100340a0000010000 0400002a00000003 01000012 8080050a 00000000 00000064 010405dc 7f01 0200000400000010 896a000400000000 -> ! 6 vplsnet: stream: 0 TlvValue 39 Parameter
    000100320a0000010000 0400002800000003 01000010 80800514 00000000 00000064 010405dc 0200000400000010 896a000400000000 -> ! 6 vplsnet: stream: 0 TlvValue 25 InfoLength
    A second element behind the first.
    0001003a0a0000010000 0400003000000003 01000018 80800508 00000000 00000064 010405dc 8080050000000007 0200000400000010 896a000400000000 -> 0 Unprocessed id=3 type=1024 why=UnknownFec:128
    The prefix 10.0.0.3/32 with the label 3.
    000100220a0000010000 0400001800000003 01000008 02000120 0a000003 0200000400000003 -> 0 Unprocessed id=3 type=1024 why=UnknownFec:2
";

const LONG_MAPPING: &str = "
= Both ends of a pseudowire by name, and each of its parameters.
: front 0001005e0a0000010000 0400005400000003 0100001c 80000414 00000007 00000064 010405dc 03046162 06040fff 0c040102 02000004000fffff 896a00040000003f 896d0012 010400000064 03040a000002 04040a000003 896d0006 03040a000003
: taken
0 LabelMapping id=3 fec=0/4/7/100 mtu=1500 description=6162 vlan=4095 vccv=1/2 label=1048575 status=63 point=100/10.0.0.2/10.0.0.3 point=-/10.0.0.3/-

";

// Requests and withdrawals of labels, the status of a pseudowire, and withdrawn MAC addresses.
const LABEL_ROWS: &str = "
    An empty description is none.
    000100200a0000010000 0401001600000004 0100000e 80800506 00000000 00000064 0302 -> 0 LabelRequest id=4 fec=1/5/0/100
    0001001a0a0000010000 0402001000000004 01000008 80800500 00000007 -> 0 LabelWithdraw id=4 fec=1/5/7/*
    000100260a0000010000 0403001c00000009 0100000c 80800504 00000000 00000064 0200000400000010 -> 0 LabelRelease id=9 fec=1/5/0/100 label=16
    000100260a0000010000 0404001c0000000a 0100000c 80800504 00000000 00000064 0600000400000009 -> 0 LabelAbort id=10 fec=1/5/0/100 request=9
    000100340a0000010000 0001002a0000000b 0300000a 00000028 00000000 0000 896a000400000010 0100000c 80800504 00000000 00000064 -> 0 Notification id=11 code=0/0/40/0/0 fec=1/5/0/100 status=16
    000100220a000001000003010018000000050100000c8080050400000000000000ca84040000 -> 0 AddressWithdraw id=5 fec=1/5/0/202 macs=0/
    0001002e0a0000010000 0301002400000006 0100000c 80800504 00000000 00000064 8404000c 020000000001 0200000000ff -> 0 AddressWithdraw id=6 fec=1/5/0/100 macs=2/0200000000010200000000ff
";

// Streams of some PDUs, of which the last may be cut off or be refused.
const STREAMS: &str = "
= A PDU of two messages, and a PDU of one.
: front 000100160a0000010000 0201000400000001 0201000400000002 0001000e0a00000100000201000400000001
: taken
0 KeepAlive id=1
0 KeepAlive id=2
26 KeepAlive id=1

= A PDU that is cut off.
: front 0001000e0a000001000002010004000000
: told 6 vplsnet: stream ends at 0
= An octet behind a PDU.
: front 0001000e0a00000100000201000400000001 00
: told 6 vplsnet: stream ends at 18
: taken
0 KeepAlive id=1

= A second PDU that is cut off.
: front 000100160a0000010000 0201000400000001 0201000400000002 0001000e0a00
: told 6 vplsnet: stream ends at 26
: taken
0 KeepAlive id=1
0 KeepAlive id=2

= Seven PDUs.
: front 000100200a0000010000 0200001600000001 0500000e 000100b4000010000a0000020000
0001000e0a0000010000 0201000400000002
000100320a0000010000 0400002800000003 01000010 80800508 00000000 00000064 010405dc 0200000400000010 896a000400000000
000100340a0000010000 0001002a00000004 0300000a 00000028 00000000 0000 896a000400000006 0100000c 80800504 00000000 00000064
0001002e0a0000010000 0301002400000005 0100000c 80800504 00000000 00000064 8404000c 02000000000a 02000000000b
000100260a0000010000 0402001c00000006 0100000c 80800504 00000000 00000064 0200000400000010
000100260a0000010000 0403001c00000007 0100000c 80800504 00000000 00000064 0200000400000011
: taken
0 Initialization id=1 session=1/180/0/0/0/4096/10.0.0.2:0
36 KeepAlive id=2
54 LabelMapping id=3 fec=1/5/0/100 mtu=1500 label=16 status=0
108 Notification id=4 code=0/0/40/0/0 fec=1/5/0/100 status=6
164 AddressWithdraw id=5 fec=1/5/0/100 macs=2/02000000000a02000000000b
214 LabelWithdraw id=6 fec=1/5/0/100 label=16
256 LabelRelease id=7 fec=1/5/0/100 label=17

= A second PDU that is too short.
: front 0001000e0a00000100000201000400000001 0001000d
: told 6 vplsnet: stream: 18 PduLength 2
: taken
0 KeepAlive id=1

= A second PDU whose message is too short.
: front 0001000e0a00000100000201000400000001 0001000e0a0000010000 0201000300000001
: told 6 vplsnet: stream: 18 MessageLength 12
: taken
0 KeepAlive id=1

";

// Streams that are refused at their first PDU for a header or a message.
const REFUSED_ROWS: &str = "
    0001000d -> ! 6 vplsnet: stream: 0 PduLength 2
    00011001 -> ! 6 vplsnet: stream: 0 PduLength 2
    0002 -> ! 6 vplsnet: stream: 0 Version 0
    0001000f0a0000010000 020100050000000100 -> ! 6 vplsnet: stream: 0 TlvLength 18
    0001001b0a0000010000 0001001100000001 03000009 800000100000000102 -> ! 6 vplsnet: stream: 0 TlvValue 20 Status
    0001001e0a0000010000 0100001400000007 04000004002dc000 04000004002dc000 -> ! 6 vplsnet: stream: 0 Repeated 26 Hello
";

// A KeepAlive and a PDU with a wrong length.
const CUT: &str = "
: words decode f
: front 0001000e0a00000100000201000400000001 0001000d
: hexadecimal
: entries 0
";

// How a call ends by its words.
const OUTSIDE_ROWS: &str = "
    $ decode -> ! 2 vplsnet: usage
    $ decode f f -> ! 2 vplsnet: usage
    $ decode -f -> ! 2 vplsnet: usage
    $ decoded f -> ! 2 vplsnet: usage
    $ decode g -> ! 3 vplsnet: read fault
";

// How a call ends by which call of the shelf fails, and by how much the sink takes.
const OUTSIDE: &str = "
= The first call of the shelf fails.
: shelf 1
: told 3 vplsnet: read fault
= The second call of the shelf fails.
: shelf 2
: told 3 vplsnet: read fault
= The third call of the shelf would fail.
: shelf 3
: told 6 vplsnet: stream: 18 PduLength 2
: taken
0 KeepAlive id=1

= There is room for the line.
: room 17
: told 6 vplsnet: stream: 18 PduLength 2
: taken
0 KeepAlive id=1

= There is room for the line without its end.
: room 16
: told 4 vplsnet: write fault
: taken
0 KeepAlive id=1

= There is no room.
: room 0
: told 4 vplsnet: write fault
";

// More KeepAlives than a stream holds.
const MANY: &str = "
= Their lines are the digits of 0, 18, 36 and so on to 17982, and 16 characters behind each.
: piece 0001000e0a00000100000201000400000001
: times 1000
: room 30000
: long 20381
: ends

17964 KeepAlive id=1
17982 KeepAlive id=1

";

// KeepAlives whose lines are more than the 65,536 octets that are written at once: 19,381 digits, and 16 characters behind each.
const PAGES: &str = "
: piece 0001000e0a00000100000201000400000001
: times 4000
: room 90000
= Whole.
: long 83381
: ends

71982 KeepAlive id=1

= Behind it a PDU with a wrong length.
: back 0001000d
: told 6 vplsnet: stream: 72000 PduLength 2
: long 83381
: ends

71982 KeepAlive id=1

= Behind it a PDU that is cut off.
: back 0001
: told 6 vplsnet: stream ends at 72000
: long 83381
: ends

71982 KeepAlive id=1

= The first write fails.
: sink 1
: told 4 vplsnet: write fault
= The second write fails.
: sink 2
: told 4 vplsnet: write fault
: long 65536
: ends

56682 KeepAlive id=1
56700
= The sink is full within the second write.
: room 70000
: told 4 vplsnet: write fault
: long 70000
: ends

60498 KeepAlive id=1
60516 KeepAlive i
";

// A decoding of a text.
const TEXT: &str = "
: words decode f
: entries 0
";

const TOO_LONG: &str = "
= 67,108,865 octets.
: piece ################################################################
: times 1048576
: back #
: told 5 vplsnet: f is longer than 67108864
";

#[test]
fn writes_messages_of_sessions_and_addresses(rt: HostRuntime) {
    lines_play(&rt, rt.alloc(), DECODE, SESSION_ROWS);
    plays(&rt, rt.alloc(), DECODE, NOTHING);
}

#[test]
fn writes_label_mappings(rt: HostRuntime) {
    lines_play(&rt, rt.alloc(), DECODE, MAPPING_ROWS);
    plays(&rt, rt.alloc(), DECODE, LONG_MAPPING);
}

#[test]
fn writes_messages_of_labels(rt: HostRuntime) {
    lines_play(&rt, rt.alloc(), DECODE, LABEL_ROWS);
}

#[test]
fn ends_where_a_stream_or_the_outside_does(rt: HostRuntime) {
    let alloc = rt.alloc();
    plays(&rt, alloc, DECODE, STREAMS);
    lines_play(&rt, alloc, DECODE, REFUSED_ROWS);
    lines_play(&rt, alloc, CUT, OUTSIDE_ROWS);
    plays(&rt, alloc, CUT, OUTSIDE);
    plays(&rt, alloc, DECODE, MANY);
}

#[test]
fn writes_long_texts_page_by_page(rt: HostRuntime) {
    plays(&rt, rt.alloc(), DECODE, PAGES);
}

// A test has a minute, so what takes long is a test of its own.
#[test]
fn tells_a_stream_that_is_too_long(rt: HostRuntime) {
    plays(&rt, rt.alloc(), TEXT, TOO_LONG);
}
