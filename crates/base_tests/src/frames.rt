//! One frame at a circuit and as a pseudowire carries it, with octets that were worked out by hand (RFC 3032 section 2.1, RFC 4448
//! section 4).
ghost use Rattle.std.specs.Prelude.{◌≤◌, length};

use crate::hex::octets_of;
use crate::rows::{About, reads_as};
use crate::steps::{cut, event_of, label};
use crate::words::{holds, is_front, is_same, is_told};
use eth_encap::{FrameFault, dress, inner, pack, read_entry, unpack};
use std::alloc::Global;
use std::process::Abort;

// What comes of a step with octets: their own, a fault or an entry of a label stack. A frame of 14 octets `enters` at a circuit or
// `leaves` one, with a tag of this VLAN ID or with none. A circuit's frame, or its front alone, `packs` under label 16 with TTL 255, and
// what stands behind a label `unpacks`: with a control word (`word`), with this VLAN ID in tagged mode (`tag`), or in raw mode (`-`).
// One `reads` the label in front of a packet.
const ROWS: &str = "
    enters 7 ffffffffffff 020000000001 8100 6007 0800 = ffffffffffff 020000000001 0800
    enters 8 ffffffffffff 020000000001 8100 6007 0800 = Err(WrongTag)
    enters 7 ffffffffffff 020000000001 0800 = Err(NoTag)
    enters - ffffffffffff 020000000001 81 = Err(Short)
    leaves 7 ffffffffffff 020000000001 0800 = ffffffffffff 020000000001 8100 0007 0800
    packs word ffffffffffff 020000000001 0800 = 000101ff 00000000 ffffffffffff 020000000001 0800
    packs 9 ffffffffffff 020000000001 0800 = 000101ff ffffffffffff 020000000001 8100 0009 0800
    packs - - = 000101ff
    packs 9 - = 000101ff 8100 0009
    packs 9 07 = 000101ff 07 8100 0009
    packs 9 ffffffffffff 020000000001 = 000101ff ffffffffffff 020000000001 8100 0009
    packs 9 ffffffffffff 020000000001 08 = 000101ff ffffffffffff 020000000001 8100 0009 08
    unpacks word 00000000 ffffffffffff 020000000001 0800 = ffffffffffff 020000000001 0800
    unpacks tag ffffffffffff 020000000001 8100 0009 0800 = ffffffffffff 020000000001 0800
    unpacks word - = Err(Short)
    unpacks word 10000000 = Err(BadNibble)
    unpacks word 00000000 ffffffffffff 020000000001 08 = Err(Short)
    unpacks tag ffffffffffff 020000000001 0800 = Err(NoTag)
    unpacks tag ffffffffffff 020000000001 8100 0009 08 = Err(Short)
    reads - 000101ff 00000000 = Ok(StackEntry { label: 16, bottom: true, ttl: 255 })
    reads - 000101 = Err(Short)
    reads - 00010100 = Err(Ttl)
";

// What is written of octets, which have room: how many octets, or the fault.
fn written(
    rt: &impl Abort,
    how: (u8, &str),
    octets: &[u8],
    out: &mut [u8; 64],
) -> Result<usize, FrameFault>
    requires { length octets.now ≤ 48 }
{
    let (letter, mode) = how;
    let vlan = mode.parse::<u16>().ok();
    let label = label(rt, 16);
    let has_word = is_same(mode.as_bytes(), b"word");
    match letter {
        b'p' => Ok(pack(label, 255, has_word, vlan, octets, out)),
        b'u' => unpack(
            has_word,
            is_same(mode.as_bytes(), b"tag"),
            1500,
            octets,
            out,
        ),
        b'l' => Ok(dress(vlan, octets, out)),
        _ => inner(vlan, 1500, octets, out),
    }
}

// Octets are written as these, or have the fault of these words.
fn is_written(rt: &impl Abort, alloc: Global, how: (u8, &str), octets: &[u8], words: &str) {
    let mut out = [0xee; 64];
    holds(rt, octets.len() <= 48, "48 octets at most");
    match written(rt, how, octets, &mut out) {
        Ok(count) => {
            let wanted = octets_of(rt, alloc, words);
            holds(rt, count == wanted.len(), words);
            holds(rt, is_front(&out, wanted.as_slice()), words);
        }
        Err(fault) => is_told(rt, alloc, &Err::<usize, FrameFault>(fault), words),
    }
}

/// What comes of a step are these octets, or this fault or entry.
pub fn agrees(rt: &impl Abort, alloc: Global, step: &str, words: &str) {
    let (letter, more) = event_of(rt, step);
    let (mode, digits) = cut(rt, more);
    let octets = octets_of(rt, alloc, digits);
    match letter {
        b'r' => is_told(rt, alloc, &read_entry(octets.as_slice()), words),
        _ => is_written(rt, alloc, (letter, mode), octets.as_slice(), words),
    }
}

#[test]
fn carries_a_frame(rt: HostRuntime) {
    reads_as(&rt, rt.alloc(), About::Frames, ROWS, 22);
}
