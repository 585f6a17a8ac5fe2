//! Marks of neighbours.
ghost use Rattle.std.specs.Prelude.{◌≡◌, ◌==◌, ◌||◌, ℕ, true, false, not, nat_lt, if◌then◌else◌};
ghost use Rattle.pw_ends.specs.Marks.{is_marked};

use net_base::EdgeId;

/// A mark for each edge of a plan, at most 64, as a bit of a word. An edge past the 64 counts as marked.
#[derive(Clone, Copy)]
pub struct PeerMarks {
    word: u64,
}

impl PeerMarks {
    /// No edge is marked.
    #[tactic(auto, using(crate::proofs::BitLemmas::unmarked))]
    pub fn new() -> PeerMarks
        ensures { (k : ℕ) → is_marked result k ≡ not (nat_lt k 64) }
    {
        PeerMarks { word: 0 }
    }

    /// Whether a neighbour is marked.
    #[inline(always)]
    #[tactic(auto, unfolding(crate::specs::Marks::is_marked))]
    pub fn has(self, peer: EdgeId) -> bool
        ensures { result ≡ is_marked self peer.0 }
    {
        if peer.0 >= 64 {
            return true;
        }
        (self.word >> peer.0) & 1 == 1
    }

    /// Whether each that is marked is so by others too.
    #[tactic(auto, using(crate::proofs::BitLemmas::bits_within))]
    pub(crate) fn is_within(self, others: PeerMarks) -> bool
        ensures { result ≡ true → (k : ℕ) → is_marked others k ≡ false → is_marked self k ≡ false }
    {
        self.word | others.word == others.word
    }

    /// A neighbour is marked.
    #[inline(always)]
    #[tactic(auto, using(crate::proofs::BitLemmas::bit_set, crate::proofs::BitLemmas::bit_past))]
    pub fn with(self, peer: EdgeId) -> PeerMarks
        ensures { (k : ℕ) → is_marked result k ≡ (k == peer.0 || is_marked self k) }
    {
        if peer.0 >= 64 {
            return self;
        }
        PeerMarks {
            word: self.word | 1 << peer.0,
        }
    }

    /// The mark of a neighbour is taken away.
    #[inline(always)]
    #[tactic(auto, using(crate::proofs::BitLemmas::bit_cleared, crate::proofs::BitLemmas::bit_kept))]
    pub fn without(self, peer: EdgeId) -> PeerMarks
        ensures { (k : ℕ) → is_marked result k ≡ (if k == peer.0 then not (nat_lt k 64) else is_marked self k) }
    {
        if peer.0 >= 64 {
            return self;
        }
        PeerMarks {
            word: self.word & !(1 << peer.0),
        }
    }
}
