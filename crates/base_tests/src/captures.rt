//! Captures that were worked out by hand: their frames, and one file for each fault and each field, with its place.

use crate::hex::{octets_of, push_octets};
use crate::rows::{About, reads_as};
use crate::words::{holds, is_same, is_told};
use pcap_file::{read_capture, write_header, write_record};
use std::alloc::Global;
use std::process::Abort;

// Whole files. In those of two frames zone, accuracy, snap length, times and original lengths are any, and the second frame
// has no octets; then a header alone. The first faults are those of no octets, and of fewer than a magic.
const FILES: &str = "
    a1b2c3d4 00020004 ffffffff 00000001 00000001 00000001  00000007 3b9ac9ff 00000003 000005dc 010203  00000008 00000000 00000000 00000000 = Ok(List { items: [List { items: [1, 2, 3] }, List { items: [] }] })
    a1b23c4d 00020004 ffffffff 00000001 00000001 00000001  00000007 3b9ac9ff 00000003 000005dc 010203  00000008 00000000 00000000 00000000 = Ok(List { items: [List { items: [1, 2, 3] }, List { items: [] }] })
    d4c3b2a1 02000400 ffffffff 01000000 01000000 01000000  07000000 ffc99a3b 03000000 dc050000 010203  08000000 00000000 00000000 00000000 = Ok(List { items: [List { items: [1, 2, 3] }, List { items: [] }] })
    4d3cb2a1 02000400 ffffffff 01000000 01000000 01000000  07000000 ffc99a3b 03000000 dc050000 010203  08000000 00000000 00000000 00000000 = Ok(List { items: [List { items: [1, 2, 3] }, List { items: [] }] })
    d4c3b2a1 02000400 00000000 00000000 ffff0000 01000000 = Ok(List { items: [] })
    = Err(Truncated { at: 0, field: Magic })
    d4c3b2 = Err(Truncated { at: 0, field: Magic })
    000000 = Err(Truncated { at: 0, field: Magic })
    Another magic: none, that of a pcapng file, one half in each order.
    00000000 = Err(Magic { at: 0 })
    0a0d0d0a 1c000000 = Err(Magic { at: 0 })
    a1b2b2a1 00020004 = Err(Magic { at: 0 })
    A file that ends where a field begins, or within it.
    d4c3b2a1 = Err(Truncated { at: 4, field: Major })
    d4c3b2a1 02 = Err(Truncated { at: 4, field: Major })
    d4c3b2a1 0200 = Err(Truncated { at: 6, field: Minor })
    d4c3b2a1 020004 = Err(Truncated { at: 6, field: Minor })
    d4c3b2a1 02000400 = Err(Truncated { at: 8, field: Zone })
    d4c3b2a1 02000400 00000000 = Err(Truncated { at: 12, field: Accuracy })
    d4c3b2a1 02000400 00000000 00000000 = Err(Truncated { at: 16, field: Snap })
    d4c3b2a1 02000400 00000000 00000000 ffff0000 = Err(Truncated { at: 20, field: Network })
    d4c3b2a1 02000400 00000000 00000000 ffff0000 010000 = Err(Truncated { at: 20, field: Network })
    Another version, also where nothing is behind it.
    d4c3b2a1 0300 = Err(Version { at: 4 })
    d4c3b2a1 0300 0400 = Err(Version { at: 4 })
    d4c3b2a1 0200 0300 = Err(Version { at: 4 })
    The version of the other byte order.
    d4c3b2a1 0002 0004 = Err(Version { at: 4 })
    a1b2c3d4 0200 0400 = Err(Version { at: 4 })
    Another network.
    d4c3b2a1 02000400 00000000 00000000 ffff0000 02000000 = Err(Network { at: 20 })
    d4c3b2a1 02000400 00000000 00000000 ffff0000 00000001 = Err(Network { at: 20 })
    a1b23c4d 00020004 00000000 00000000 0000ffff 01000000 = Err(Network { at: 20 })
";

// A header, low octets first, times in microseconds.
const HEADER: &str = "d4c3b2a1 02000400 00000000 00000000 ffff0000 01000000";

// What stands behind it. The last file has two records of 60 octets, of which it ends within the second, after 150 octets.
const RECORDS: &str = "
    00 = Err(Truncated { at: 24, field: Seconds })
    00000000 = Err(Truncated { at: 28, field: Fraction })
    00000000 000000 = Err(Truncated { at: 28, field: Fraction })
    00000000 00000000 = Err(Truncated { at: 32, field: Captured })
    A length of 262,145, and the largest one that may be.
    00000000 00000000 01000400 = Err(Length { at: 32 })
    00000000 00000000 ffffffff = Err(Length { at: 32 })
    00000000 00000000 00000400 = Err(Truncated { at: 36, field: Original })
    00000000 00000000 02000000 ffffff = Err(Truncated { at: 36, field: Original })
    00000000 00000000 02000000 02000000 ff = Err(Truncated { at: 40, field: Data })
    00000000 00000000 00000400 00000400 = Err(Truncated { at: 40, field: Data })
    The second record.
    00000000 00000000 01000000 01000000 ff 00000000 00000000 00000000 0000 = Err(Truncated { at: 53, field: Original })
    00000000 00000000 3c000000 3c000000 abababababababababababababababababababababababababababababababababababababababababababababababababababababababababababab 00000000 00000000 3c000000 3c000000 abababababababababababababababababababababababababababababababababab = Err(Truncated { at: 116, field: Data })
";

// The same header, high octets first.
const BIG: &str = "a1b2c3d4 00020004 00000000 00000000 0000ffff 00000001";

// What stands behind it.
const BIG_RECORDS: &str = "
    00000000 00000000 00040001 = Err(Length { at: 32 })
    00000000 00000000 00000002 00000002 ff = Err(Truncated { at: 40, field: Data })
";

/// The file of a header and of the octets of a row has these frames or this fault, in the words of its type.
pub fn agrees(rt: &impl Abort, alloc: Global, header: &str, more: &str, words: &str) {
    let mut octets = octets_of(rt, alloc, header);
    push_octets(rt, &mut octets, more);
    let read = read_capture(alloc, octets.as_slice());
    is_told(rt, alloc, &read, words);
}

#[test]
fn reads_files(rt: HostRuntime) {
    let alloc = rt.alloc();
    reads_as(&rt, alloc, About::Captures(""), FILES, 28);
    reads_as(&rt, alloc, About::Captures(HEADER), RECORDS, 12);
    reads_as(&rt, alloc, About::Captures(BIG), BIG_RECORDS, 2);
}

// The octets are a capture of one frame of 262,144 octets.
fn has_longest_frame(rt: &impl Abort, alloc: Global, octets: &[u8]) {
    let read = read_capture(alloc, octets).expect(rt, "a capture");
    let is_longest = match read.as_slice() {
        [frame] => frame.len() == 262_144,
        _ => false,
    };
    holds(rt, is_longest, "one frame of 262,144 octets");
}

// What stands before its octets.
const BEFORE_LONGEST: &str =
    "a1b2c3d4 00020004 00000000 00000000 00000000 00000001 00000000 00000000 00040000 00040000";

#[test]
fn reads_the_longest_frame(rt: HostRuntime) {
    let mut octets = octets_of(&rt, rt.alloc(), BEFORE_LONGEST);
    for _ in 0..262_144 {
        octets.push(0x5A).expect(&rt, "memory");
    }
    has_longest_frame(&rt, rt.alloc(), octets.as_slice());
}

const WRITTEN: [u8; 44] = [
    0xd4, 0xc3, 0xb2, 0xa1, 2, 0, 4, 0, 0, 0, 0, 0, 0, 0, 0, 0, 0xff, 0xff, 0, 0, 1, 0, 0, 0, 4, 3,
    2, 1, 0, 0, 0, 0, 3, 0, 0, 0, 3, 0, 0, 0, 0xee, 0xee, 0xee, 0xee,
];

#[test]
fn writes_low_octets_first(rt: HostRuntime) {
    let mut out = [0xEE; 44];
    let header = write_header(&mut out);
    let record = write_record(0x01020304, 3, &mut out[header..]);
    holds(&rt, (header, record) == (24, 16), "24 octets and 16");
    holds(&rt, is_same(&out, &WRITTEN), "the octets of both");
}
