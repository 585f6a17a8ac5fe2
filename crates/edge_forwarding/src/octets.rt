//! Octets that are made of pieces in one buffer.
ghost use Rattle.std.specs.Prelude.{◌≡◌, ◌≤◌, ◌++◌, length, take, drop, IfOk};

use net_base::{List, NoMemory, Octets};
use std::alloc::Global;
use std::cmp::min;

/// The octets of the addresses of a frame (IEEE 802.3 clause 3.2).
const ADDRESSES: usize = 12;

/// The addresses of a frame, and what stands behind them; of a frame that ends before, what there is of them, and nothing.
#[tactic(auto, using(std::proofs::lemmas::List::take_min, std::proofs::lemmas::List::drop_min))]
pub fn split_addresses(frame: &[u8]) -> (&[u8], &[u8])
    ensures addresses { result.0.now ≡ take 12 frame.now }
    ensures most { length result.0.now ≤ 12 }
    ensures rest { result.1.now ≡ drop 12 frame.now }
{
    frame.split_at(min(ADDRESSES, frame.len()))
}

/// One piece behind the other, in one buffer that has room for both.
pub fn join(alloc: Global, front: &[u8], back: &[u8]) -> Result<Octets, NoMemory>
    ensures { IfOk result (λ octets. octets ≡ front.now ++ back.now) }
{
    let mut octets = List::with_capacity(alloc, front.len() + back.len())?;
    octets.extend_from_slice(front)?;
    octets.extend_from_slice(back)?;
    Ok(octets)
}
