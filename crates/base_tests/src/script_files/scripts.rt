//! Scripts that are wrong, each with its first place.

use crate::words::{holds, is_same};
use script_text::{Line, ScriptFault, read_lines};
use std::alloc::Global;
use std::process::Abort;

// An empty line; a word that is empty, or has a blank, a tab, a letter outside ASCII or an octet of control; a last line without its end,
// also behind a word that is wrong.
const FAULTS: [(&str, u32, u32); 10] = [
    ("\n", 1, 1),
    ("tick\n\n", 2, 1),
    ("tick \n", 1, 2),
    (" tick\n", 1, 1),
    ("open a\tb\n", 1, 2),
    ("open a b", 1, 4),
    ("tick\nopen  a b\n", 2, 2),
    ("tick\ntick", 2, 2),
    ("bring é\n", 1, 2),
    ("bring \u{7f}", 1, 2),
];

/// The fault of a script is at this word of this line.
pub fn is_at(rt: &impl Abort, fault: Option<ScriptFault>, line: u32, word: u32) {
    let bad = ScriptFault::Bad { line, word };
    holds(rt, fault == Some(bad), "the first place that is wrong");
}

// The first fault of a text of fewer octets than a script may have is here.
fn is_wrong(rt: &impl Abort, alloc: Global, text: &[u8], line: u32, word: u32) {
    holds(rt, text.len() < 1_000_000, "fewer octets");
    is_at(rt, read_lines(alloc, text).err(), line, word);
}

#[test]
fn names_the_first_place_that_is_wrong(rt: HostRuntime) {
    for (text, line, word) in FAULTS.as_slice() {
        is_wrong(&rt, rt.alloc(), text.as_bytes(), *line, *word);
    }
}

// A text of fewer octets than a script may have has so many lines.
fn counts(rt: &impl Abort, alloc: Global, text: &[u8], count: usize) {
    holds(rt, text.len() < 1_000_000, "fewer octets");
    let lines = read_lines(alloc, text).ok().expect(rt, "lines");
    holds(rt, lines.len() == count, "so many lines");
}

// A line has so many words, and these behind the first.
fn has(rt: &impl Abort, line: &Line, count: usize, rest: &str) {
    holds(rt, line.len() == count, "so many words");
    holds(rt, is_same(line.rest().as_bytes(), rest.as_bytes()), rest);
}

// The lines `do settle 20` and `tick`.
fn are_two(rt: &impl Abort, lines: &[Line]) {
    holds(rt, lines.len() == 2, "two lines");
    let first = lines.get(0).expect(rt, "a line");
    has(rt, first, 3, "settle 20");
    holds(rt, first.word(2) == Some("20"), "the third word");
    holds(rt, first.word(3).is_none(), "no fourth word");
    has(rt, lines.get(1).expect(rt, "a line"), 1, "");
}

#[test]
fn reads_words_and_what_follows_the_first(rt: HostRuntime) {
    let lines = read_lines(rt.alloc(), b"do settle 20\ntick\n")
        .ok()
        .expect(&rt, "lines");
    are_two(&rt, lines.as_slice());
}

#[test]
fn reads_no_line_of_no_octets(rt: HostRuntime) {
    counts(&rt, rt.alloc(), b"", 0);
}

// So many lines.
fn ticks(rt: &impl Abort, alloc: Global, count: usize) -> Vec<u8> {
    let mut text = Vec::new(alloc);
    for _line in 0..count {
        text.extend_from_slice(b"tick\n").expect(rt, "memory");
    }
    text
}

#[test]
fn takes_as_many_lines_as_a_script_may_have(rt: HostRuntime) {
    let text = ticks(&rt, rt.alloc(), 100_000);
    counts(&rt, rt.alloc(), text.as_slice(), 100_000);
}

#[test]
fn refuses_one_line_more(rt: HostRuntime) {
    let text = ticks(&rt, rt.alloc(), 100_001);
    is_wrong(&rt, rt.alloc(), text.as_slice(), 100_001, 1);
}
