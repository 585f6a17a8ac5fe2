//! Octets that lie in two pieces.
ghost use Rattle.std.specs.Prelude.{◌≡◌, ◌≤◌, ◌<◌, ◌+◌, ◌++◌, length, take, drop, slice_index, IfSome};
ghost use Rattle.ldp_grammar.specs.Octets.{two_at, four_at};
ghost use Rattle.net_values.specs.Octets.{AreOctets};
ghost use Rattle.ldp_codec.specs.Part.{joined};

use crate::numbers::{four, two};
use net_values::put;

/// The octets of the longest PDU (RFC 5036 section 3.5.3: a PDU Length of 4096, and the four octets that it leaves out).
pub const ROOM: usize = 4100;

/// Octets of which the first lie in one piece and the others in another one, as those of a PDU do that lies across a
/// ring's end. Either piece may be empty.
#[derive(Clone, Copy, Debug)]
pub struct Part<'a> {
    /// The first octets.
    pub front: &'a [u8],
    /// The octets behind them.
    pub back: &'a [u8],
}

#[tactic(auto, unfolding(crate::specs::Part::joined))]
impl<'a> Part<'a> {
    /// Octets in one piece.
    #[inline(always)]
    pub fn whole(octets: &'a [u8]) -> Part<'a>
        ensures { joined result ≡ octets.now }
    {
        Part {
            front: octets,
            back: &[],
        }
    }

    /// Says that each of them is one that an octet holds. It does nothing.
    #[inline(always)]
    pub(crate) fn are_octets(self)
        ensures { AreOctets (joined self.entry) }
    {
        both_octets(self.front, self.back);
    }

    /// How many octets there are.
    #[tactic(auto, unfolding(crate::specs::Part::joined), using(net_values::proofs::RowLemmas::joined_length))]
    #[inline(always)]
    pub fn len(self) -> usize
        ensures { result ≡ length (joined self.entry) }
    {
        self.front.len() + self.back.len()
    }

    /// The octet at a place.
    #[tactic(auto, unfolding(crate::specs::Part::joined), using(net_values::proofs::RowLemmas::joined_length, crate::proofs::PartLemmas::at_front, crate::proofs::PartLemmas::at_back))]
    #[inline(always)]
    pub fn byte(self, at: usize) -> u8
        requires { at < length (joined self) }
        ensures { result ≡ slice_index (joined self.entry) at }
    {
        if at < self.front.len() {
            self.front[at]
        } else {
            self.back[at - self.front.len()]
        }
    }

    /// The number in the two octets at a place, the high octet first, wherever the pieces meet.
    #[inline(always)]
    pub fn two(self, at: usize) -> u16
        requires { at + 2 ≤ length (joined self) }
        ensures { result ≡ two_at at (joined self.entry) }
    {
        if at + 2 <= self.front.len() {
            return two(self.front, at);
        }
        self.byte(at) as u16 * 256 + self.byte(at + 1) as u16
    }

    /// The number in the four octets at a place, the highest octet first.
    #[inline(always)]
    pub fn four(self, at: usize) -> u32
        requires { at + 4 ≤ length (joined self) }
        ensures { result ≡ four_at at (joined self.entry) }
    {
        if at + 4 <= self.front.len() {
            return four(self.front, at);
        }
        self.two(at) as u32 * 65536 + self.two(at + 2) as u32
    }

    /// The octets before a place, and those from there on.
    #[tactic(auto, unfolding(crate::specs::Part::joined), using(net_values::proofs::RowLemmas::joined_length, crate::proofs::PartLemmas::cut_front, crate::proofs::PartLemmas::cut_back))]
    #[inline(always)]
    pub fn split_at(self, at: usize) -> (Part<'a>, Part<'a>)
        requires { at ≤ length (joined self) }
        ensures front { joined result.0 ≡ take at (joined self.entry) }
        ensures back { joined result.1 ≡ drop at (joined self.entry) }
    {
        if at <= self.front.len() {
            let (first, rest) = self.front.split_at(at);
            (
                Part::whole(first),
                Part {
                    front: rest,
                    back: self.back,
                },
            )
        } else {
            let (first, rest) = self.back.split_at(at - self.front.len());
            (
                Part {
                    front: self.front,
                    back: first,
                },
                Part::whole(rest),
            )
        }
    }

    /// The octets in one piece, where one of the two is empty.
    #[inline(always)]
    pub fn as_slice(self) -> Option<&'a [u8]>
        ensures { IfSome result (λ octets. octets.now ≡ joined self.entry) }
    {
        if self.back.is_empty() {
            Some(self.front)
        } else if self.front.is_empty() {
            Some(self.back)
        } else {
            None
        }
    }

    /// Writes the octets at the front of others, which stay as they are behind them.
    pub fn copy_to(self, out: &mut [u8])
        requires room { length (joined self) ≤ length out.old }
        ensures octets { out.new ≡ joined self.entry ++ drop (length (joined self.entry)) out.old }
    {
        let middle = put(out, 0, self.front);
        put(out, middle, self.back);
    }
}

// Each of the octets is one that an octet holds. It stands alone, since the prover knows so of what is given.
fn both_octets(front: &[u8], back: &[u8])
    ensures { AreOctets (front.now ++ back.now) }
{}
