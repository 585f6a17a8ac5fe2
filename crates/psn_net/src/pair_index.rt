//! Ordered pairs of edges with a mark.
ghost use Rattle.std.specs.Prelude.{◌≡◌, ◌<◌, ◌≤◌, ◌≢◌, ℕ, false, length, IfOk, IfSome};
ghost use Rattle.network_model.specs.Delivery.{first_from, first_pair};
ghost use Rattle.psn_net.specs.PairIndex.{IsClear, has_mark, in_word, put_pair};

use net_base::NoMemory;
use std::alloc::Global;
use std::marker::Model;

/// Which ordered pairs of edges have a mark, such as those that have something to deliver: a word for each first edge, of which bit k
/// stands for the second edge k. The first pair is found by at most 64 words, however many have one.
#[derive(Drop)]
pub struct PairIndex {
    rows: Vec<u64>,
}

impl Model for PairIndex {
    ghost use Rattle.psn_net.specs.PairIndex.{IndexLists, IsPairIndex};

    ghost Value = { IndexLists };

    ghost view = { λ i. record { rows = i.rows.items } };

    ghost invariant = { λ i. IsPairIndex i.rows.items };
}

impl PairIndex {
    /// An index of so many edges without a mark.
    pub fn open(alloc: Global, size: usize) -> Result<PairIndex, NoMemory>
        requires { size ≤ 64 }
        ensures size { IfOk result (λ index. length index.rows ≡ size) }
        ensures none { IfOk result (λ index. IsClear index.rows) }
    {
        let rows = vec![in alloc; 0u64; size]?;
        Ok(PairIndex { rows })
    }

    /// Marks a pair, or takes its mark away.
    pub fn put(&mut self, from: usize, to: usize, on: bool)
        requires from { from < length self.old.rows }
        requires to { to < length self.old.rows }
        ensures size { length self.new.rows ≡ length self.old.rows }
        ensures step { has_mark self.new ≡ put_pair from to on (has_mark self.old) }
    {
        let word = self.rows[from];
        self.rows[from] = with_bit(word, to, on);
    }

    /// Whether a pair has a mark.
    #[tactic(auto, unfolding(crate::specs::PairIndex::in_word))]
    pub fn has(&self, from: usize, to: usize) -> bool
        requires from { from < length self.now.rows }
        requires to { to < length self.now.rows }
        ensures { result ≡ has_mark self.now from to }
    {
        (self.rows[from] >> to) & 1 == 1
    }

    /// The first pair with a mark, by the first edge and then by the second.
    #[tactic(auto, using(crate::proofs::PairLemmas::pair_steps))]
    pub fn first(&self) -> Option<(usize, usize)>
        ensures first { result ≡ first_pair (has_mark self.now) (length self.now.rows) 0 (length self.now.rows) }
        ensures within { IfSome result (λ pair. (pair.0 < length self.now.rows) × (pair.1 < length self.now.rows)) }
    {
        let size = self.rows.len();
        for from in 0..size {
            if let Some(to) = self.first_of(from) {
                return Some((from, to));
            }
        }
        None
    }

    // The first edge with which an edge has a mark.
    fn first_of(&self, from: usize) -> Option<usize>
        requires { from < length self.now.rows }
        ensures first { result ≡ first_from (has_mark self.now from) 0 (length self.now.rows) }
        ensures within { IfSome result (λ to. to < length self.now.rows) }
    {
        first_in(self.rows[from], self.rows.len())
    }
}

// The word with a bit on or off.
#[tactic(auto, using(crate::proofs::WordLemmas::word_steps))]
fn with_bit(word: u64, place: usize, on: bool) -> u64
    requires { place < 64 }
    ensures same { in_word result place ≡ on }
    ensures others { (k : ℕ) → k ≢ place → in_word result k ≡ in_word word k }
{
    if on {
        word | 1 << place
    } else {
        word & !(1 << place)
    }
}

// The lowest bit of a word that is on; past `size` there is none.
#[tactic(auto, using(crate::proofs::WordLemmas::word_first))]
fn first_in(word: u64, size: usize) -> Option<usize>
    requires { (k : ℕ) → size ≤ k → in_word word k ≡ false }
    ensures first { result ≡ first_from (in_word word) 0 size }
    ensures within { IfSome result (λ to. to < size) }
{
    if word == 0 {
        None
    } else {
        Some(word.trailing_zeros() as usize)
    }
}
