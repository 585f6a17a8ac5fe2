//! The choice of a spoke.
ghost use Rattle.std.specs.{Prelude.{◌≡◌, ◌||◌, ◌↔◌, ℕ, false, None, position}, List.{list_any}};
ghost use Rattle.spoke_redundancy.specs.{Choice.{chosen, is_usable_spoke}, Least.{IsLeast, is_least, is_less, is_usable_below}};

use crate::Spoke;

/// The place of the spoke that is chosen: of the usable spokes the first one with the least priority number. `None` exactly where
/// none is usable (RFC 6870, RFC 4762 section 10.2.1). It looks at each spoke at most twice, and takes no memory.
#[tactic(auto, using(crate::proofs::ChoiceLemmas::chosen_is, crate::proofs::ChoiceLemmas::none_is))]
pub fn choose(spokes: &[Spoke]) -> Option<usize>
    ensures chosen { result ≡ chosen spokes.now }
    ensures none { result ≡ None ↔ list_any is_usable_spoke spokes.now ≡ false }
{
    let least = least_priority(spokes);
    first_of(spokes, least)
}

// The least priority number of the usable spokes; `None` where none is usable.
#[tactic(auto, using(crate::proofs::ChoiceLemmas::least_more))]
fn least_priority(spokes: &[Spoke]) -> Option<u8>
    ensures { IsLeast spokes.now result }
{
    let mut least = None;
    for spoke in spokes {
        least = lesser(least, *spoke);
    }
    least
}

// The lesser one of a priority number and that of a spoke, if it is usable.
fn lesser(least: Option<u8>, spoke: Spoke) -> Option<u8>
    ensures { (number : ℕ) → is_less result number ≡ (is_less least number || is_usable_below number spoke) }
{
    if !spoke.usable {
        return least;
    }
    match least {
        Some(priority) => Some(priority.min(spoke.priority)),
        None => Some(spoke.priority),
    }
}

// The place of the first usable spoke of which the priority number is no greater than the least one.
fn first_of(spokes: &[Spoke], least: Option<u8>) -> Option<usize>
    ensures { result ≡ position (is_least least) spokes.now }
{
    spokes.iter().position(|spoke| is_least(*spoke, least))
}

// Whether the spoke is usable, and its priority number no greater than the least one.
fn is_least(spoke: Spoke, least: Option<u8>) -> bool
    ensures { result ≡ is_least least spoke }
{
    match least {
        Some(priority) => spoke.usable && spoke.priority <= priority,
        None => spoke.usable,
    }
}
