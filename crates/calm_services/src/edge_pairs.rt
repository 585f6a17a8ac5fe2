//! Sets of pairs of edges.
ghost use Rattle.std.specs.Prelude.{◌≡◌, ◌≢◌, ◌<◌, ◌&&◌, ◌||◌, ◌==◌, ℕ, true, false};
ghost use Rattle.net_base.specs.plan.Paths.{is_first, is_last, joins, joins_first};
ghost use Rattle.calm_services.specs.EdgePairs.{has_pair, holds_number};

use net_base::{EdgeId, first_of, last_of};
use std::marker::Model;

/// A set of pairs of edges 0 to 63: a row of 64 bits for each edge.
#[derive(Drop)]
pub(crate) struct EdgePairs {
    rows: [u64; 64],
}

impl Model for EdgePairs {
    ghost use Rattle.std.specs.Prelude.{List, ℕ};

    ghost Value = { List ℕ };

    ghost view = { λ p. p.rows };
}

impl EdgePairs {
    /// The set without a pair.
    pub fn empty() -> EdgePairs
        ensures { (n : ℕ) → holds_number result n ≡ false }
    {
        EdgePairs { rows: [0; 64] }
    }

    /// Whether a pair is in the set.
    #[tactic(auto, using(crate::proofs::PairLemmas::pair_place))]
    pub fn contains(&self, a: u16, b: u16) -> bool
        requires a { a < 64 }
        requires b { b < 64 }
        ensures { result ≡ has_pair self.now a b }
    {
        (self.rows[a as usize] >> b) & 1 == 1
    }

    // Puts a pair into the set, by its number.
    fn set(&mut self, number: u16)
        requires { number < 4096 }
        ensures it { holds_number self.new number ≡ true }
        ensures others { (n : ℕ) → n ≢ number → holds_number self.new n ≡ holds_number self.old n }
    {
        let row = number as usize / 64;
        self.rows[row] |= 1 << (number % 64);
    }

    // Puts a pair into the set.
    #[tactic(auto, using(crate::proofs::PairLemmas::pair_put))]
    fn insert(&mut self, a: u16, b: u16)
        requires a { a < 64 }
        requires b { b < 64 }
        ensures { (x y : ℕ) → y < 64 → has_pair self.new x y ≡ (x == a && y == b) || has_pair self.old x y }
    {
        self.set(a * 64 + b);
    }

    /// Puts two edges into the set, either one first, where they are two of 64.
    #[tactic(auto, using(crate::proofs::PairLemmas::both_put, crate::proofs::PairLemmas::none_put))]
    pub fn join(&mut self, a: EdgeId, b: EdgeId)
        ensures { (x y : ℕ) → x < 64 → y < 64 → has_pair self.new x y ≡ ((x == a.0 && y == b.0) || (y == a.0 && x == b.0)) || has_pair self.old x y }
    {
        if a.0 < 64 && b.0 < 64 {
            self.insert(a.0, b.0);
            self.insert(b.0, a.0);
        }
    }

    // Puts an edge and the first one after it into the set.
    fn join_first(&mut self, first: EdgeId, after: &[EdgeId])
        ensures { (x y : ℕ) → x < 64 → y < 64 → has_pair self.new x y ≡ joins_first x y first after.now || has_pair self.old x y }
    {
        if let [next, ..] = after {
            self.join(first, *next);
        }
    }

    /// Puts each two edges into the set that a segment of the path joins.
    #[tactic(auto, using(net_base::proofs::PathLemmas::joins_step, crate::proofs::PairLemmas::step_more))]
    pub fn join_path(&mut self, path: &[EdgeId])
        ensures { (x y : ℕ) → x < 64 → y < 64 → has_pair self.new x y ≡ joins x y path.now || has_pair self.old x y }
    {
        let mut rest = path;
        'joining: while let [first, after @ ..] = rest {
            self.join_first(*first, after);
            rest = after;
        }
    }

    /// Puts the terminal edges of a path into the set.
    #[tactic(auto, using(net_base::proofs::PathLemmas::is_last_edge, crate::proofs::PairLemmas::no_ends))]
    pub fn join_ends(&mut self, path: &[EdgeId])
        ensures { (x y : ℕ) → x < 64 → y < 64 → has_pair self.new x y ≡ ((is_first x path.now && is_last y path.now) || (is_first y path.now && is_last x path.now)) || has_pair self.old x y }
    {
        let Some(first) = first_of(path) else {
            return;
        };
        if let Some(last) = last_of(path) {
            self.join(first, last);
        }
    }
}
