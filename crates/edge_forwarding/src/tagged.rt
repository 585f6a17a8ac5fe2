//! Frames as they leave at circuits.
ghost use Rattle.std.specs.Prelude.{◌≡◌, IfOk};
ghost use Rattle.net_base.specs.trace.Frame.{dress as dressed_frame};

use crate::octets::{join, split_addresses};
use eth_encap::dress;
use net_base::{NoMemory, Octets};
use std::alloc::Global;

/// The inner frame with the tag, where there is one. The frame is copied once, into the one buffer that is taken for it. A frame without
/// a tag stays as it came, in one piece.
#[tactic(auto, using(crate::proofs::CopyLemmas::dressed_whole))]
pub fn dressed(alloc: Global, tag: Option<u16>, frame: &[u8]) -> Result<Octets, NoMemory>
    ensures { IfOk result (λ octets. octets ≡ dressed_frame tag frame.now) }
{
    if tag.is_none() {
        return Octets::from_bytes(alloc, frame);
    }
    let (addresses, rest) = split_addresses(frame);
    let mut out = [0u8; 16];
    let count = dress(tag, addresses, &mut out);
    let (front, _) = out.split_at(count);
    join(alloc, front, rest)
}
