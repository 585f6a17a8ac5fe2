//! Which edges the core edges meet.
ghost use Rattle.std.specs.Prelude.{◌≡◌, ◌<◌, ◌≤◌, ◌==◌, ◌&&◌, ◌||◌, ℕ, Some, true, false, IfSome, if◌then◌else◌, length, nat_lt};
ghost use Rattle.survey_reach.specs.{Met.{AreMet, meet, meets, meets_by}, Reach.{AreFew, place_of}, Words.{has_pair, in_word}};

use crate::EdgePairs;
use crate::word::{has_bit, with_bit, with_bit_where};
use net_base::EdgeId;

/// What core edges meet, worked out once for each that is asked for.
#[derive(Clone, Copy)]
struct Met {
    rows: EdgePairs,
    // The core edges of which it is worked out.
    known: u64,
}

// Whether a core edge is another one, where there is one, or is meshed with it.
fn meet(meshes: &EdgePairs, core: EdgeId, other: Option<EdgeId>) -> bool
    requires core { core.0 < 64 }
    requires other { IfSome other (λ edge. edge.0 < 64) }
    ensures { result ≡ meet meshes.now (Some core.0) (place_of other) }
{
    match other {
        Some(other) => core.0 == other.0 || meshes.has(core.0 as usize, other.0 as usize),
        None => false,
    }
}

// The edges of which the core edge meets this one.
#[tactic(auto, using(crate::proofs::MetLemmas::met_steps))]
fn met_by(meshes: &EdgePairs, cores: &[Option<EdgeId>], core: EdgeId) -> u64
    requires core { core.0 < 64 }
    requires all { length cores.now ≤ 64 }
    requires few { AreFew cores.now }
    ensures { (k : ℕ) → in_word result k ≡ meets meshes.now cores.now (Some core.0) k }
{
    let mut word = 0;
    for edge in 0..cores.len() {
        word = with_bit_where(word, edge, meet(meshes, core, cores[edge]));
    }
    word
}

impl Met {
    // Of none it is worked out.
    #[tactic(auto, using(crate::proofs::WordLemmas::none_in_zero))]
    fn none() -> Met
        ensures { (k : ℕ) → in_word result.known k ≡ false }
    {
        Met {
            rows: EdgePairs::none(),
            known: 0,
        }
    }

    // Works it out for a core edge.
    #[tactic(auto, using(crate::proofs::MetLemmas::learned))]
    fn learn(&mut self, meshes: &EdgePairs, cores: &[Option<EdgeId>], core: EdgeId)
        requires core { core.0 < 64 }
        requires all { length cores.now ≤ 64 }
        requires few { AreFew cores.now }
        requires met { AreMet meshes.now cores.now self.old }
        ensures met { AreMet meshes.now cores.now self.new }
        ensures known { in_word self.new.known core.0 ≡ true }
    {
        let row = met_by(meshes, cores, core);
        self.rows.set_row(core.0 as usize, row);
        self.known = with_bit(self.known, core.0 as usize);
    }

    // The edges that a core edge meets.
    fn row(&mut self, meshes: &EdgePairs, cores: &[Option<EdgeId>], core: EdgeId) -> u64
        requires core { core.0 < 64 }
        requires all { length cores.now ≤ 64 }
        requires few { AreFew cores.now }
        requires met { AreMet meshes.now cores.now self.old }
        ensures row { (k : ℕ) → in_word result k ≡ meets meshes.now cores.now (Some core.0) k }
        ensures met { AreMet meshes.now cores.now self.new }
    {
        if !has_bit(self.known, core.0 as usize) {
            self.learn(meshes, cores, core);
        }
        self.rows.row(core.0 as usize)
    }

    // The same of a core edge, where there is one.
    #[tactic(auto, using(crate::proofs::WordLemmas::none_in_zero))]
    fn row_of(&mut self, meshes: &EdgePairs, cores: &[Option<EdgeId>], core: Option<EdgeId>) -> u64
        requires core { IfSome core (λ edge. edge.0 < 64) }
        requires all { length cores.now ≤ 64 }
        requires few { AreFew cores.now }
        requires met { AreMet meshes.now cores.now self.old }
        ensures row { (k : ℕ) → in_word result k ≡ meets meshes.now cores.now (place_of core) k }
        ensures met { AreMet meshes.now cores.now self.new }
    {
        match core {
            Some(core) => self.row(meshes, cores, core),
            None => 0,
        }
    }
}

/// Whom each edge reaches: itself, and each edge of which the core edge meets its own one.
#[tactic(auto, using(crate::proofs::MetLemmas::row_steps))]
pub(crate) fn rows(meshes: &EdgePairs, cores: &[Option<EdgeId>]) -> EdgePairs
    requires all { length cores.now ≤ 64 }
    requires few { AreFew cores.now }
    ensures { (a b : ℕ) → has_pair result a b ≡ (nat_lt a (length cores.now) && meets_by meshes.now cores.now a b) }
{
    let mut pairs = EdgePairs::none();
    let mut met = Met::none();
    for edge in 0..cores.len() {
        let row = met.row_of(meshes, cores, cores[edge]);
        pairs.set_row(edge, with_bit_where(row, edge, true));
    }
    pairs
}
