//! The texts of faults: what is wrong, and at which octet.

use crate::words::all_say;
use eth_encap::FrameFault;
use ldp_codec::DecodeFault;
use ldp_stream::StreamFault;
use net_base::Field;
use pcap_file::{CaptureFault, CaptureField};
use pw_stitch::SwapDrop;
use vccv_channel::VccvFault;

static OF_FRAMES: [(FrameFault, &str); 7] = [
    (FrameFault::Short, "too few octets"),
    (FrameFault::Long, "more octets than the MTU leaves room for"),
    (FrameFault::WrongTag, "another VLAN ID"),
    (FrameFault::NoTag, "no VLAN tag"),
    (FrameFault::BadNibble, "no control word of a frame"),
    (
        FrameFault::NotBottom,
        "more labels below the pseudowire label",
    ),
    (FrameFault::Ttl, "TTL 0"),
];

static OF_CHANNELS: [(VccvFault, &str); 6] = [
    (
        VccvFault::Version,
        "no associated channel header of version 0",
    ),
    (VccvFault::Channel, "no channel of IPv4"),
    (VccvFault::Ip, "no whole IPv4 packet of ICMP"),
    (VccvFault::Checksum, "a wrong checksum"),
    (VccvFault::Icmp, "no echo message of this pseudowire"),
    (
        VccvFault::NotOffered,
        "a control channel that was not agreed on",
    ),
];

static OF_SWAPS: [(SwapDrop, &str); 2] = [
    (SwapDrop::NoBinding, "no label is bound on the other side"),
    (SwapDrop::Expired, "the TTL has run out"),
];

static OF_CAPTURES: [(CaptureFault, &str); 6] = [
    (CaptureFault::Magic { at: 0 }, "another magic at 0"),
    (CaptureFault::Version { at: 4 }, "another version at 4"),
    (CaptureFault::Network { at: 20 }, "another network at 20"),
    (
        CaptureFault::Length { at: 32 },
        "a captured length above 262144 at 32",
    ),
    (
        CaptureFault::Truncated {
            at: 8_589_934_592,
            field: CaptureField::Data,
        },
        "the file ends within the field at 8589934592",
    ),
    (CaptureFault::NoMemory, "out of memory"),
];

static OF_PDUS: [(DecodeFault, &str); 7] = [
    (DecodeFault::Version { at: 0 }, "another version at 0"),
    (DecodeFault::PduLength { at: 2 }, "a wrong PDU Length at 2"),
    (
        DecodeFault::MessageLength { at: 12 },
        "a wrong Message Length at 12",
    ),
    (
        DecodeFault::TlvLength { at: 20 },
        "a wrong TLV Length at 20",
    ),
    (
        DecodeFault::TlvValue {
            at: 4_099,
            field: Field::Label,
        },
        "a wrong value at 4099",
    ),
    (
        DecodeFault::Repeated {
            at: 32,
            field: Field::Status,
        },
        "a repeated TLV or part at 32",
    ),
    (DecodeFault::NoMemory, "out of memory"),
];

static OF_STREAMS: [(StreamFault, &str); 2] = [
    (
        StreamFault::Refused {
            base: 67_108_860,
            fault: DecodeFault::PduLength { at: 2 },
        },
        "refused at 67108860: a wrong PDU Length at 2",
    ),
    (StreamFault::NoMemory, "out of memory"),
];

#[test]
fn say_what_is_wrong(rt: HostRuntime) {
    let alloc = rt.alloc();
    all_say(&rt, alloc, OF_FRAMES.as_slice());
    all_say(&rt, alloc, OF_CHANNELS.as_slice());
    all_say(&rt, alloc, OF_SWAPS.as_slice());
    all_say(&rt, alloc, OF_CAPTURES.as_slice());
    all_say(&rt, alloc, OF_PDUS.as_slice());
    all_say(&rt, alloc, OF_STREAMS.as_slice());
}
