//! Words of steps.

use net_base::Label;
use std::process::Abort;

/// The first letter of an event, and what stands behind its first word.
pub fn event_of<'a>(rt: &impl Abort, event: &'a str) -> (u8, &'a str) {
    let letter = event.as_bytes().first().expect(rt, "an event");
    match event.split_once(' ') {
        Some((_, more)) => (*letter, more),
        None => (*letter, ""),
    }
}

/// The label with this number.
pub fn label(rt: &impl Abort, number: u32) -> Label {
    Label::new(number).expect(rt, "a label")
}

/// The number of these digits.
pub fn number_of(rt: &impl Abort, digits: &str) -> u32 {
    digits.parse::<u32>().ok().expect(rt, "a number")
}

/// The words before and behind the first blank.
pub fn cut<'a>(rt: &impl Abort, words: &'a str) -> (&'a str, &'a str) {
    words.split_once(' ').expect(rt, "two words")
}
