//! What a case changes in a service.
ghost use Rattle.std.specs.Prelude.{◌≡◌, ◌<◌, ◌≤◌, ◌&&◌, ◌||◌, not, ℕ, length};
ghost use Rattle.survey_reach.specs.Words.{has_pair, in_word};
ghost use Rattle.survey_text.specs.{Relations.{any_edge, any_pair}, Surveys.{is_less}};

use crate::edges::has_any;
use net_base::EdgePlan;
use survey_reach::{EdgePairs, has_bit, in_both, without};

/// The pairs of edges of which the sites lose each other, and those of which they find each other.
#[derive(Clone, Copy)]
pub struct Change {
    pub lost: EdgePairs,
    pub found: EdgePairs,
}

// The edges that are a pair with one by a first relation and not by a second one, where both are of these.
#[tactic(auto, using(survey_reach::proofs::WordLemmas::none_in_zero))]
fn row_less(first: &EdgePairs, second: &EdgePairs, at: u64, edge: usize) -> u64
    requires { edge < 64 }
    ensures { (k : ℕ) → in_word result k ≡ ((in_word at edge && in_word at k) && (has_pair first.now edge k && not (has_pair second.now edge k))) }
{
    if has_bit(at, edge) {
        in_both(at, without(first.row(edge), second.row(edge)))
    } else {
        0
    }
}

/// The pairs of a first relation that are none of a second one, of these edges.
#[tactic(auto, using(crate::proofs::ChangeLemmas::less_steps))]
pub fn pairs_less(first: &EdgePairs, second: &EdgePairs, at: u64, count: usize) -> EdgePairs
    requires { count ≤ 64 }
    ensures { (a b : ℕ) → has_pair result a b ≡ is_less count at first.now second.now a b }
{
    let mut pairs = EdgePairs::none();
    for edge in 0..count {
        pairs.set_row(edge, row_less(first, second, at, edge));
    }
    pairs
}

// Whether some edge is a pair with another one.
#[tactic(auto, using(crate::proofs::ChangeLemmas::pair_found, crate::proofs::ChangeLemmas::no_pair, crate::proofs::ChangeLemmas::pairs_end))]
fn has_some(pairs: &EdgePairs, edges: &[EdgePlan]) -> bool
    requires { length edges.now ≤ 64 }
    ensures { result ≡ any_pair edges.now (has_pair pairs.now) }
{
    for edge in 0..edges.len() {
        if has_any(pairs.row(edge), edges, 0) {
            return true;
        }
    }
    false
}

impl Change {
    /// What is changed between two moments, of the edges that have sites.
    pub fn between(before: &EdgePairs, now: &EdgePairs, at: u64, count: usize) -> Change
        requires { count ≤ 64 }
        ensures lost { (a b : ℕ) → has_pair result.lost a b ≡ is_less count at before.now now.now a b }
        ensures found { (a b : ℕ) → has_pair result.found a b ≡ is_less count at now.now before.now a b }
    {
        Change {
            lost: pairs_less(before, now, at, count),
            found: pairs_less(now, before, at, count),
        }
    }

    /// What is changed here and is not changed there.
    pub fn less(&self, other: &Change, at: u64, count: usize) -> Change
        requires { count ≤ 64 }
        ensures lost { (a b : ℕ) → has_pair result.lost a b ≡ is_less count at self.now.lost other.now.lost a b }
        ensures found { (a b : ℕ) → has_pair result.found a b ≡ is_less count at self.now.found other.now.found a b }
    {
        Change {
            lost: pairs_less(&self.lost, &other.lost, at, count),
            found: pairs_less(&self.found, &other.found, at, count),
        }
    }

    /// Whether something is changed.
    pub fn is_some(&self, edges: &[EdgePlan]) -> bool
        requires { length edges.now ≤ 64 }
        ensures { result ≡ (any_pair edges.now (has_pair self.now.lost) || any_pair edges.now (has_pair self.now.found)) }
    {
        has_some(&self.lost, edges) || has_some(&self.found, edges)
    }
}
