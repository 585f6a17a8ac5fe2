//! Pairs of edges.
ghost use Rattle.std.specs.Prelude.{◌≡◌, ◌<◌, ◌==◌, ◌||◌, ℕ, false, if◌then◌else◌};
ghost use Rattle.survey_reach.specs.Words.{has_pair, in_word, is_pair};

use crate::word::{has_bit, with_bit};
use std::marker::Model;

/// Pairs of edges: a word for each first edge, of which bit k stands for the second edge k.
#[derive(Clone, Copy)]
pub struct EdgePairs {
    rows: [u64; 64],
}

impl Model for EdgePairs {
    ghost use Rattle.std.specs.Prelude.{◌≡◌, ℕ, List, length};

    ghost Value = { List ℕ };

    ghost view = { λ p. p.rows };

    ghost inverse = { λ v. record { rows = v } };
}

impl EdgePairs {
    /// No pairs.
    #[tactic(auto, using(crate::proofs::WordLemmas::none_in_rows))]
    pub fn none() -> EdgePairs
        ensures { (a b : ℕ) → has_pair result a b ≡ false }
    {
        EdgePairs { rows: [0; 64] }
    }

    /// Whether these two edges are a pair, in this order.
    #[tactic(auto, unfolding(crate::specs::Words::has_pair))]
    pub fn has(&self, a: usize, b: usize) -> bool
        requires a { a < 64 }
        requires b { b < 64 }
        ensures { result ≡ has_pair self.now a b }
    {
        has_bit(self.rows[a], b)
    }

    /// The edges that are a pair with a first one.
    #[tactic(auto, unfolding(crate::specs::Words::has_pair))]
    pub fn row(&self, a: usize) -> u64
        requires { a < 64 }
        ensures { (k : ℕ) → in_word result k ≡ has_pair self.now a k }
    {
        self.rows[a]
    }

    /// Puts other edges for those of a first one.
    #[tactic(auto, unfolding(crate::specs::Words::has_pair))]
    pub fn set_row(&mut self, a: usize, row: u64)
        requires { a < 64 }
        ensures { (i j : ℕ) → has_pair self.new i j ≡ (if i == a then in_word row j else has_pair self.old i j) }
    {
        self.rows[a] = row;
    }

    // Adds a pair in this order.
    #[tactic(auto, unfolding(crate::specs::Words::has_pair))]
    fn add(&mut self, a: usize, b: usize)
        requires a { a < 64 }
        requires b { b < 64 }
        ensures { (i j : ℕ) → has_pair self.new i j ≡ (is_pair a b i j || has_pair self.old i j) }
    {
        let row = with_bit(self.rows[a], b);
        self.rows[a] = row;
    }

    /// Adds a pair in both orders.
    pub fn join(&mut self, a: usize, b: usize)
        requires a { a < 64 }
        requires b { b < 64 }
        ensures { (i j : ℕ) → has_pair self.new i j ≡ ((is_pair a b i j || is_pair b a i j) || has_pair self.old i j) }
    {
        self.add(a, b);
        self.add(b, a);
    }
}
