//! A packet of a pseudowire is read.
ghost use Rattle.std.specs.Prelude.{◌≡◌, ◌≤◌, ◌+◌, ◌++◌, length, take, drop, Ok, Err, IfOk, IfErr, OnErr};
ghost use Rattle.eth_encap.specs.{Fault.{cause_of}, Packet.{behind_control, entry_of, unpacked, without_tag}};

use crate::octets::join;
use crate::tag::TAG_PROTOCOL;
use crate::{FrameFault, StackEntry};
use byteorder::{BigEndian, ByteOrder};
use net_base::pair;

/// The entry of the label stack in front of a packet (RFC 3032 section 2.1). `Short` comes exactly where there are fewer than
/// four octets, and `Ttl` exactly where its TTL is 0.
pub fn read_entry(packet: &[u8]) -> Result<StackEntry, FrameFault>
    ensures ok { IfOk result (λ entry. entry_of packet.now ≡ Ok entry) }
    ensures fault { IfErr result (λ fault. entry_of packet.now ≡ Err (cause_of fault)) }
{
    if packet.len() < 4 {
        return Err(FrameFault::Short);
    }
    let number = BigEndian::read_u32(packet);
    if number % 256 == 0 {
        return Err(FrameFault::Ttl);
    }
    Ok(StackEntry {
        label: number / 4096,
        bottom: number / 256 % 2 == 1,
        ttl: (number % 256) as u8,
    })
}

/// The inner frame of what stands behind the label stack of a packet (RFC 4448 section 4): without the control word where the
/// wire has one, and without the tag of tagged mode, whatever its VLAN ID. Answers two parts of the payload that join to it, so that
/// nothing is copied; in raw mode the first is all of it, and the second nothing. The `mtu` counts the octets behind a header, and
/// leaves room for one tag of the customer's own. The first fault that holds is answered: with control word `Short` for fewer
/// octets than that, and `BadNibble` where its first nibble is not 0; then `Short` for fewer octets than a header; in tagged mode
/// `NoTag` where there is no tag, and `Short` for fewer octets than a header and a tag; and `Long` for an inner frame of more than
/// `mtu` and 18 octets.
pub fn unpacked_parts(
    cword: bool,
    tagged: bool,
    mtu: u16,
    payload: &[u8],
) -> Result<(&[u8], &[u8]), FrameFault>
    ensures ok { IfOk result (λ parts. unpacked cword tagged mtu payload.now ≡ Ok (parts.0.now ++ parts.1.now)) }
    ensures least { IfOk result (λ parts. 14 ≤ length parts.0.now + length parts.1.now) }
    ensures fits { IfOk result (λ parts. length parts.0.now + length parts.1.now ≤ length payload.now) }
    ensures fault { IfErr result (λ fault. unpacked cword tagged mtu payload.now ≡ Err (cause_of fault)) }
{
    let frame = frame_behind(cword, payload)?;
    if frame.len() < 14 {
        return Err(FrameFault::Short);
    }
    let (front, back) = frame_parts(tagged, frame)?;
    if front.len() + back.len() > mtu as usize + 18 {
        return Err(FrameFault::Long);
    }
    Ok((front, back))
}

/// The inner frame of what stands behind the label stack of a packet, in one piece. Writes it to the front of `out`, which is as
/// long as the payload or longer, and answers its length in octets. The faults are those of `unpacked_parts`, and with a fault
/// nothing was written.
pub fn unpack(
    cword: bool,
    tagged: bool,
    mtu: u16,
    payload: &[u8],
    out: &mut [u8],
) -> Result<usize, FrameFault>
    requires { length payload.now ≤ length out.old }
    ensures ok { IfOk result (λ count. unpacked cword tagged mtu payload.now ≡ Ok (take count out.new)) }
    ensures count { IfOk result (λ count. count ≤ length payload.now) }
    ensures rest { IfOk result (λ count. drop count out.new ≡ drop count out.old) }
    ensures fault { IfErr result (λ fault. unpacked cword tagged mtu payload.now ≡ Err (cause_of fault)) }
    ensures unchanged { OnErr result (out.new ≡ out.old) }
{
    match unpacked_parts(cword, tagged, mtu, payload) {
        Ok((front, back)) => Ok(join(front, back, out)),
        Err(fault) => Err(fault),
    }
}

// What stands behind the control word, where there is one.
fn frame_behind(cword: bool, payload: &[u8]) -> Result<&[u8], FrameFault>
    ensures ok { IfOk result (λ frame. behind_control cword payload.now ≡ Ok frame.now) }
    ensures fits { IfOk result (λ frame. length frame.now ≤ length payload.now) }
    ensures fault { IfErr result (λ fault. behind_control cword payload.now ≡ Err (cause_of fault)) }
{
    if !cword {
        return Ok(payload);
    }
    if payload.len() < 4 {
        return Err(FrameFault::Short);
    }
    if payload[0] / 16 != 0 {
        return Err(FrameFault::BadNibble);
    }
    Ok(payload.split_at(4).1)
}

// The parts of a frame that its inner frame joins.
fn frame_parts(tagged: bool, frame: &[u8]) -> Result<(&[u8], &[u8]), FrameFault>
    requires { 14 ≤ length frame.now }
    ensures ok { IfOk result (λ parts. without_tag tagged frame.now ≡ Ok (parts.0.now ++ parts.1.now)) }
    ensures least { IfOk result (λ parts. 14 ≤ length parts.0.now + length parts.1.now) }
    ensures fits { IfOk result (λ parts. length parts.0.now + length parts.1.now ≤ length frame.now) }
    ensures fault { IfErr result (λ fault. without_tag tagged frame.now ≡ Err (cause_of fault)) }
{
    if !tagged {
        return Ok((frame, &[]));
    }
    if pair(frame, 12) != TAG_PROTOCOL {
        return Err(FrameFault::NoTag);
    }
    if frame.len() < 18 {
        return Err(FrameFault::Short);
    }
    Ok((frame.split_at(12).0, frame.split_at(16).1))
}
