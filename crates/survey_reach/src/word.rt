//! Sets of edges as words of bits.
ghost use Rattle.std.specs.Prelude.{◌≡◌, ◌<◌, ◌≢◌, ◌==◌, ◌&&◌, ◌||◌, not, ℕ, true};
ghost use Rattle.survey_reach.specs.Words.{in_word};

/// Whether a bit of a word is on.
#[tactic(auto, unfolding(crate::specs::Words::in_word))]
pub fn has_bit(word: u64, place: usize) -> bool
    requires { place < 64 }
    ensures { result ≡ in_word word place }
{
    (word >> place) & 1 == 1
}

/// The word with a bit on.
#[tactic(auto, using(crate::proofs::WordLemmas::word_steps))]
pub fn with_bit(word: u64, place: usize) -> u64
    requires { place < 64 }
    ensures same { in_word result place ≡ true }
    ensures others { (k : ℕ) → k ≢ place → in_word result k ≡ in_word word k }
{
    word | 1 << place
}

// The word with a bit on, where so.
#[tactic(auto, using(crate::proofs::WordLemmas::bit_where))]
pub(crate) fn with_bit_where(word: u64, place: usize, so: bool) -> u64
    requires { place < 64 }
    ensures { (k : ℕ) → in_word result k ≡ ((k == place && so) || in_word word k) }
{
    if so { with_bit(word, place) } else { word }
}

/// The bits that are on in both words.
#[tactic(auto, using(crate::proofs::WordLemmas::on_both))]
pub fn in_both(word: u64, other: u64) -> u64
    ensures { (k : ℕ) → in_word result k ≡ (in_word word k && in_word other k) }
{
    word & other
}

/// The bits of a word that are off in another one.
#[tactic(auto, using(crate::proofs::WordLemmas::on_without))]
pub fn without(word: u64, other: u64) -> u64
    ensures { (k : ℕ) → in_word result k ≡ (in_word word k && not (in_word other k)) }
{
    word & !other
}
