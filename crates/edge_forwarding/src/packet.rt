//! Packets of pseudowires: a frame as a terminal edge sends it, and as one reads it (RFC 4448 section 4).
ghost use Rattle.std.specs.Prelude.{◌≡◌, ◌≤◌, ◌+◌, ◌++◌, Ok, Err, length, IfOk, MatchResult};
ghost use Rattle.eth_encap.specs.{Fault.{cause_of}, Packet.{unpacked}};
ghost use Rattle.edge_model.specs.{Packet.{behind_entry}, Send.{packet_of, pushed_vlan}};

use crate::octets::{join, split_addresses};
use eth_encap::{FrameFault, pack, unpacked_parts};
use net_base::{NoMemory, Octets, Offer};
use pw_signalling::Binding;
use std::alloc::Global;

/// The TTL with which a packet begins its way (RFC 3032 section 2.4 leaves it open; 255 is own).
const FULL_TTL: u8 = 255;

/// The octets of an inner frame as a terminal edge with this offer sends it under a binding. The frame is copied once, into the
/// one buffer that is taken for them.
#[tactic(auto, using(crate::proofs::CopyLemmas::packed_whole))]
pub fn packet_of(
    alloc: Global,
    offer: &Offer,
    binding: &Binding,
    frame: &[u8],
) -> Result<Octets, NoMemory>
    ensures { IfOk result (λ octets. octets ≡ packet_of offer.now binding.now frame.now) }
{
    let (addresses, rest) = split_addresses(frame);
    let vlan = pushed_vlan(offer.tagged, binding.told.vlan);
    let mut out = [0u8; 24];
    let count = pack(
        binding.label,
        FULL_TTL,
        offer.cword,
        vlan,
        addresses,
        &mut out,
    );
    let (front, _) = out.split_at(count);
    join(alloc, front, rest)
}

// The VLAN ID of the tag that tagged mode puts on: the one that the peer requests, or 0 (RFC 4448 sections 4.3 and 4.4).
fn pushed_vlan(tagged: bool, requested: Option<u16>) -> Option<u16>
    ensures { result ≡ pushed_vlan tagged requested }
{
    if tagged {
        Some(requested.unwrap_or(0))
    } else {
        None
    }
}

/// What stands behind the first entry of a label stack.
pub fn without_entry(octets: &[u8]) -> &[u8]
    requires { 4 ≤ length octets.now }
    ensures { result.now ≡ behind_entry octets.now }
{
    octets.split_at(4).1
}

/// The inner frame of a payload as a terminal edge with this offer reads it, or its first fault. Answers two parts of the payload
/// that join to it, so that nothing is copied; in raw mode the first is all of it, and the second nothing.
pub fn read_payload<'a>(
    offer: &Offer,
    mtu: u16,
    payload: &'a [u8],
) -> Result<(&'a [u8], &'a [u8]), FrameFault>
    ensures read { MatchResult result (λ parts. unpacked offer.now.cword offer.now.tagged mtu payload.now ≡ Ok (parts.0.now ++ parts.1.now)) (λ fault. unpacked offer.now.cword offer.now.tagged mtu payload.now ≡ Err (cause_of fault)) }
    ensures header { IfOk result (λ parts. 14 ≤ length parts.0.now + length parts.1.now) }
{
    unpacked_parts(offer.cword, offer.tagged, mtu, payload)
}
