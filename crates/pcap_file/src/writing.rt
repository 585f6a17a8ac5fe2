//! The octets of a capture that is written.
ghost use Rattle.std.specs.Prelude.{◌≡◌, ◌≤◌, ◌++◌, length as length_of, drop};
ghost use Rattle.pcap_file.specs.Written.{written_header, written_record};

use byteorder::{ByteOrder, LittleEndian};

// The magic, version 2.4, time zone, accuracy, snap length 65,535, and Ethernet.
const HEADER: [u8; 24] = [
    0xD4, 0xC3, 0xB2, 0xA1, 2, 0, 4, 0, 0, 0, 0, 0, 0, 0, 0, 0, 0xFF, 0xFF, 0, 0, 1, 0, 0, 0,
];

/// Writes the header of a capture to the front of `out`, which has room for its 24 octets, and answers their number: low
/// octets first, times in microseconds, version 2.4, snap length 65,535, Ethernet (libpcap's capture file format, "File
/// Header").
pub fn write_header(out: &mut [u8]) -> usize
    requires room { 24 ≤ length_of out.old }
    ensures count { result ≡ 24 }
    ensures octets { out.new ≡ written_header ++ drop 24 out.old }
{
    out[..24].copy_from_slice(&HEADER);
    24
}

/// Writes what stands before the octets of a frame in a record to the front of `out`, which has room for it, and answers
/// its 16 octets: the seconds, fraction 0, and the length of the frame in octets, as captured and as original (libpcap's
/// capture file format, "Packet Record"). The frame's octets are to stand behind it. A length above 262,144 is written, but
/// is not read again.
pub fn write_record(seconds: u32, length: u32, out: &mut [u8]) -> usize
    requires room { 16 ≤ length_of out.old }
    ensures count { result ≡ 16 }
    ensures octets { out.new ≡ written_record seconds length ++ drop 16 out.old }
{
    LittleEndian::write_u32(out, seconds);
    LittleEndian::write_u32(&mut out[4..], 0);
    LittleEndian::write_u32(&mut out[8..], length);
    LittleEndian::write_u32(&mut out[12..], length);
    16
}
