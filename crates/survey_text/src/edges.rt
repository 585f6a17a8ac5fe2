//! Sets of edges as words.
ghost use Rattle.std.specs.Prelude.{◌≡◌, ◌<◌, ◌≤◌, ◌==◌, ℕ, drop, length};
ghost use Rattle.survey_reach.specs.Words.{in_word};
ghost use Rattle.survey_text.specs.Relations.{any_edge};

use net_base::EdgePlan;
use survey_reach::{has_bit, with_bit};

/// The word of one edge.
#[tactic(auto, using(survey_reach::proofs::WordLemmas::none_in_zero))]
pub fn only(edge: usize) -> u64
    requires { edge < 64 }
    ensures { (k : ℕ) → in_word result k ≡ (k == edge) }
{
    with_bit(0, edge)
}

// Whether a bit of an edge from a place on is on.
#[tactic(auto, using(crate::proofs::EdgeLemmas::any_step))]
fn search(word: u64, edges: &[EdgePlan], from: usize) -> bool
    requires few { length edges.now ≤ 64 }
    requires from { from ≤ length edges.now }
    ensures { result ≡ any_edge (in_word word) from (drop from edges.now) }
{
    for edge in from..edges.len() {
        if has_bit(word, edge) {
            return true;
        }
    }
    false
}

/// Whether a word has one of the edges from a place on. Most words have none, and say so at once.
#[tactic(auto, using(crate::proofs::EdgeLemmas::none_in_zero))]
pub fn has_any(word: u64, edges: &[EdgePlan], from: usize) -> bool
    requires few { length edges.now ≤ 64 }
    requires from { from ≤ length edges.now }
    ensures { result ≡ any_edge (in_word word) from (drop from edges.now) }
{
    word != 0 && search(word, edges, from)
}
