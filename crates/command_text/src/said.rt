//! What the words of a command say.
ghost use Rattle.std.specs.Prelude.{◌≡◌, ◌<◌, ◌≤◌, not, true, is_some, Some, length, option_and_then, option_map, IfOk, IfSome};
ghost use Rattle.plan_names.specs.{Names.{place_in}, Decimal.{decimal_from}};
ghost use Rattle.command_text.specs.{Hex.{frame_of}, Reading.{Gives, MapsTo, checked, found}};
ghost use Rattle.command_text.specs.Words.{said_word, ends_before, first_word, some_word, word_at};
ghost use Rattle.octet_text.specs.Cut.{behind_mark};
ghost use Rattle.script_text.specs.Script.{space};
ghost use Rattle.net_base.specs.plan.Planned.{IsFrame};

use crate::ScenarioFault;
use net_base::{NoMemory, Octets, Word};
use octet_text::{cut_at, octets_of};
use plan_names::{NameIndex, decimal};
use std::alloc::Global;

/// The fault that a word is missing, one too many, or not what has to stand there.
pub fn bad_word(event: u32, number: u32) -> ScenarioFault
    ensures { result ≡ ScenarioFault.BadWord event number }
{
    ScenarioFault::BadWord {
        event,
        word: number,
    }
}

/// The word of this number.
#[tactic(auto, unfolding(crate::specs::Words::word_at))]
pub fn word(text: &str, number: u32) -> Option<&str>
    requires { 1 ≤ number }
    ensures { option_map (λ w. w.now) result ≡ word_at number text.now }
{
    script_text::word(text, number as usize - 1)
}

/// The place that a word names.
pub fn place_of(
    names: &NameIndex<'_>,
    event: u32,
    number: u32,
    word: &[u8],
) -> Result<u16, ScenarioFault>
    ensures exact { result ≡ found (ScenarioFault.BadWord event number) (place_in names.now word.now) }
    ensures within { IfOk result (λ place. place < length names.now) }
{
    match names.place(word) {
        Some(place) => Ok(place),
        None => Err(bad_word(event, number)),
    }
}

/// The place that the word of this number names.
pub fn name_word(
    names: &NameIndex<'_>,
    event: u32,
    number: u32,
    text: &str,
) -> Result<u16, ScenarioFault>
    requires { 1 ≤ number }
    ensures exact { result ≡ said_word (place_in names.now) event number text.now }
    ensures within { IfOk result (λ place. place < length names.now) }
{
    match word(text, number) {
        Some(word) => place_of(names, event, number, word.as_bytes()),
        None => Err(bad_word(event, number)),
    }
}

/// The number from `low` to `high` that a word writes.
pub fn number_word(
    low: u64,
    high: u64,
    event: u32,
    number: u32,
    text: &str,
) -> Result<u64, ScenarioFault>
    requires { 1 ≤ number }
    ensures exact { result ≡ said_word (decimal_from low high) event number text.now }
    ensures within { IfOk result (λ n. (low ≤ n) × (n ≤ high)) }
{
    match word(text, number) {
        Some(word) => match decimal(low, high, word.as_bytes()) {
            Some(value) => Ok(value),
            None => Err(bad_word(event, number)),
        },
        None => Err(bad_word(event, number)),
    }
}

// The octets of a frame, where they are 1 to 9216.
fn frame(alloc: Global, capacity: usize, digits: &[u8]) -> Result<Option<Octets>, NoMemory>
    ensures value { IfOk result (λ octets. octets ≡ frame_of digits.now) }
    ensures sized { IfOk result (λ octets. IfSome octets IsFrame) }
{
    let Some(octets) = octets_of(alloc, capacity, true, digits)? else {
        return Ok(None);
    };
    if octets.is_empty() || octets.len() > 9216 {
        return Ok(None);
    }
    Ok(Some(octets))
}

// The octets of a frame that the first word writes. Digits have no space among them, so all octets are tried first as they are, and
// walked once.
#[tactic(auto, using(crate::proofs::FrameLemmas::frame_of_first))]
fn first_frame(alloc: Global, capacity: usize, octets: &[u8]) -> Result<Option<Octets>, NoMemory>
    ensures value { IfOk result (λ bytes. bytes ≡ frame_of (first_word octets.now)) }
    ensures sized { IfOk result (λ bytes. IfSome bytes IsFrame) }
{
    match frame(alloc, capacity, octets)? {
        Some(bytes) => Ok(Some(bytes)),
        None => {
            let (word, _) = cut_at(b' ', octets);
            frame(alloc, capacity, word)
        }
    }
}

/// The octets of a frame that the first word of a rest writes, where there is this rest, in a list of this capacity or what they need.
pub fn frame_octets(
    alloc: Global,
    capacity: usize,
    event: u32,
    number: u32,
    rest: Option<&[u8]>,
) -> Result<Octets, ScenarioFault>
    ensures exact { Gives result (found (ScenarioFault.BadWord event number) (option_and_then frame_of (option_map first_word (option_map (λ r. r.now) rest.entry)))) }
    ensures sized { IfOk result IsFrame }
    ensures read { IfOk result (λ octets. option_and_then frame_of (option_map first_word (option_map (λ r. r.now) rest.entry)) ≡ Some octets) }
{
    match rest {
        Some(rest) => match first_frame(alloc, capacity, rest)? {
            Some(octets) => Ok(octets),
            None => Err(bad_word(event, number)),
        },
        None => Err(bad_word(event, number)),
    }
}

/// Whether a word stands behind the one that writes these octets, two digits for each.
#[tactic(auto, using(crate::proofs::FrameLemmas::more_behind))]
pub fn goes_on(rest: Option<&[u8]>, bytes: &Octets) -> bool
    requires read { option_and_then frame_of (option_map first_word (option_map (λ r. r.now) rest)) ≡ Some bytes.now }
    requires sized { IsFrame bytes.now }
    ensures { result ≡ is_some (option_and_then (behind_mark space) (option_map (λ r. r.now) rest.entry)) }
{
    match rest {
        Some(rest) => rest.len() > 2 * bytes.len(),
        None => false,
    }
}

/// The name of a file, a word that is not empty.
pub fn file_word(alloc: Global, event: u32, number: u32, text: &str) -> Result<Word, ScenarioFault>
    requires { 1 ≤ number }
    ensures { Gives result (said_word some_word event number text.now) }
{
    match word(text, number) {
        Some(name) if !name.is_empty() => Ok(Word::new(alloc, name)?),
        _ => Err(bad_word(event, number)),
    }
}

/// Refuses a word of this number, where there is one.
pub fn no_more(event: u32, number: u32, more: bool) -> Result<(), ScenarioFault>
    ensures { MapsTo (λ _. true) result (checked (ScenarioFault.BadWord event number) (not more)) }
{
    if more {
        return Err(bad_word(event, number));
    }
    Ok(())
}

/// Refuses a word of this number.
pub fn no_word(event: u32, number: u32, text: &str) -> Result<(), ScenarioFault>
    requires { 1 ≤ number }
    ensures { MapsTo (λ _. true) result (ends_before event number text.now) }
{
    no_more(event, number, word(text, number).is_some())
}
