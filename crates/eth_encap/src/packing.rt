//! A frame is packed for a pseudowire.
ghost use Rattle.std.specs.Prelude.{◌≡◌, ◌≤◌, ◌+◌, ◌++◌, true, length, drop};
ghost use Rattle.eth_encap.specs.Packet.{control_word, entry_octets, packed};

use crate::leaving::dress;
use crate::octets::join;
use byteorder::{BigEndian, ByteOrder};
use net_base::Label;

/// The bottom bit of an entry of a label stack (RFC 3032 section 2.1).
const BOTTOM: u32 = 0x100;

/// The control word of a frame: no flags, no fragments, and a sequence number that is not used (RFC 4448 section 4.6).
const CONTROL_WORD: [u8; 4] = [0, 0, 0, 0];

/// A packet of a pseudowire (RFC 4448 section 4): an entry of the label stack with this label and TTL at the bottom, the
/// control word where the wire has one, and the inner frame, which has a tag with this VLAN ID in tagged mode. Every frame is
/// packed: the tag comes behind its first twelve octets, or behind all of them where it has fewer. Writes the packet to the front
/// of `out`, which has twelve octets more than the inner frame or still more, and answers its length in octets. `vlan` is told in
/// tagged mode alone; where it is at most 4095 it stands there with priority and drop eligibility 0.
#[tactic(auto, using(crate::proofs::PacketLemmas::packed_behind))]
pub fn pack(
    label: Label,
    ttl: u8,
    cword: bool,
    vlan: Option<u16>,
    inner: &[u8],
    out: &mut [u8],
) -> usize
    requires room { length inner.now + 12 ≤ length out.old }
    ensures count { result ≡ length (packed label ttl cword vlan inner.now) }
    ensures octets { out.new ≡ packed label ttl cword vlan inner.now ++ drop result out.old }
{
    let at = put_front(label, ttl, cword, out);
    let (_, rest) = out.split_at_mut(at);
    at + dress(vlan, inner, rest)
}

// Writes the entry of the label stack and the control word, and answers the place behind them.
fn put_front(label: Label, ttl: u8, cword: bool, out: &mut [u8]) -> usize
    requires { 8 ≤ length out.old }
    ensures end { result ≡ length (entry_octets label true ttl ++ control_word cword) }
    ensures most { result ≤ 8 }
    ensures octets { out.new ≡ (entry_octets label true ttl ++ control_word cword) ++ drop result out.old }
{
    let entry = entry_bytes(label, ttl);
    if cword {
        join(&entry, &CONTROL_WORD, out)
    } else {
        join(&entry, &[], out)
    }
}

// The octets of an entry at the bottom of a label stack.
fn entry_bytes(label: Label, ttl: u8) -> [u8; 4]
    ensures { result ≡ entry_octets label true ttl }
{
    let mut octets = [0u8; 4];
    BigEndian::write_u32(&mut octets, label.number() * 0x1000 + (BOTTOM + ttl as u32));
    octets
}
