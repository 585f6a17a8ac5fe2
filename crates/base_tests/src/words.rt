//! What values are told as: in the words of their types, or in those of a fault.

ghost use Rattle.std.specs.Prelude.{◌≡◌, true};

use net_base::Text;
use std::alloc::Global;
use std::fmt::{Debug, Display};
use std::process::Abort;

// The words of an empty description.
const NO_TEXT: &str =
    "Text { octets: [0, 0, 0, 0, 0, 0, 0, 0, 0, 0, 0, 0, 0, 0, 0, 0, 0, 0, 0, 0, 0, 0, 0, 0, 0, 0, 0, 0, 0, 0, 0, 0, 0, 0, 0, 0, 0, 0, 0, 0, 0, 0, 0, 0, 0, 0, 0, 0, 0, 0, 0, 0, 0, 0, 0, 0, 0, 0, 0, 0, 0, 0, 0, 0, 0, 0, 0, 0, 0, 0, 0, 0, 0, 0, 0, 0, 0, 0, 0, 0], len: 0 }";

// What stands behind a name or a key.
fn behind_key<'a>(rt: &impl Abort, alloc: Global, told: &'a str, key: &str) -> Option<&'a str> {
    let key: Text<32> = Text::read(key.as_bytes()).expect(rt, "a key");
    let words = format!(in alloc; "{key:?}").expect(rt, "memory");
    told.strip_prefix(words.as_str())
}

// What stands behind these words, which are a name, a key or an empty description, or not.
fn behind<'a>(
    rt: &impl Abort,
    alloc: Global,
    told: Option<&'a str>,
    words: &str,
    quoted: bool,
) -> Option<&'a str> {
    let told = told?;
    match (quoted, words) {
        (true, "") => told.strip_prefix(NO_TEXT),
        (true, key) => behind_key(rt, alloc, told, key),
        (false, words) => told.strip_prefix(words),
    }
}

// These are the words that are told, where a name, a key or an empty description stands in quotes.
fn are_words(rt: &impl Abort, alloc: Global, told: &str, words: &str) -> bool {
    let mut rest = Some(told);
    let mut quoted = false;
    for piece in words.split('\'') {
        rest = behind(rt, alloc, rest, piece, quoted);
        quoted = !quoted;
    }
    match rest {
        Some(rest) => rest.is_empty(),
        None => false,
    }
}

/// This is so, or the test ends with these words. Tests ask it by this one call, since each `assert!` takes long to prove.
pub fn holds(rt: &impl Abort, is_so: bool, words: &str)
    ensures { is_so ≡ true }
{
    assert!(rt; is_so, "{words}");
}

/// A value is told in these words of its type, where a name, a key or an empty description stands in quotes.
pub fn is_told<T: Debug>(rt: &impl Abort, alloc: Global, value: &T, words: &str) {
    let told = format!(in alloc; "{value:?}").expect(rt, "memory");
    holds(rt, are_words(rt, alloc, told.as_str(), words), words);
}

/// A fault says these words.
pub fn says<T: Display>(rt: &impl Abort, alloc: Global, fault: &T, words: &str) {
    let told = format!(in alloc; "{fault}").expect(rt, "memory");
    holds(rt, is_same(told.as_bytes(), words.as_bytes()), words);
}

/// Each of these faults says the words beside it.
pub fn all_say<T: Display>(rt: &impl Abort, alloc: Global, rows: &[(T, &str)]) {
    for row in rows {
        says(rt, alloc, &row.0, row.1);
    }
}

/// Whether these are the same octets. Tests compare them by this one call, since each comparison takes long to prove.
pub fn is_same(one: &[u8], other: &[u8]) -> bool {
    one == other
}

// More octets than stand behind what is written.
const UNTOUCHED: [u8; 96] = [0xee; 96];

/// The front of what was written is these octets, and what stands behind them stays 0xee.
pub fn is_front(out: &[u8], octets: &[u8]) -> bool {
    let (front, rest) = out.split_at(octets.len().min(out.len()));
    let (untouched, _) = UNTOUCHED.split_at(rest.len().min(96));
    is_same(front, octets) && is_same(rest, untouched)
}
