//! Tables of documents and of what they are read as.

use crate::words::{holds, is_told};
use scenario_text::{Scenario, read_scenario};
use std::alloc::Global;
use std::process::Abort;

// A scenario has so many commands, or commands or a plan of these words, which has no commands then.
fn is_scenario(rt: &impl Abort, alloc: Global, scenario: &Scenario, words: &str) {
    if let Some(count) = words.strip_suffix(" commands") {
        is_told(rt, alloc, &scenario.commands.len(), count);
    } else if words.starts_with("List") {
        is_told(rt, alloc, &scenario.commands, words);
    } else {
        holds(rt, scenario.commands.is_empty(), "no commands");
        is_told(rt, alloc, &scenario.plan, words);
    }
}

/// Octets are a scenario with these words, or have the fault of these words.
pub fn reads_octets(rt: &impl Abort, alloc: Global, octets: &[u8], words: &str) {
    match read_scenario(alloc, octets) {
        Ok(scenario) => is_scenario(rt, alloc, &scenario, words),
        Err(fault) => is_told(rt, alloc, &fault, words),
    }
}

// A form with a text in place of its `@`.
fn filled(rt: &impl Abort, alloc: Global, form: &str, text: &str) -> String {
    let (front, back) = form.split_once('@').expect(rt, "a form");
    format!(in alloc; "{front}{text}{back}").expect(rt, "memory")
}

// A text in the form of a document has these words in their form.
fn agrees(rt: &impl Abort, alloc: Global, document: &str, words: &str, row: (&str, &str)) {
    let document = filled(rt, alloc, document, row.0);
    let words = filled(rt, alloc, words, row.1);
    reads_octets(rt, alloc, document.as_bytes(), words.as_str());
}

/// What stands between the rows of a table, each of which is one line or more.
pub const LINES: &str = "\n";

pub const BLOCKS: &str = "\n\n";

/// The form of a whole document, and that of whole words.
pub const WHOLE: &str = "@";

/// So many rows of a table: a text in the form of a document, and behind ` => ` words in a form of words.
pub fn read_as(
    rt: &impl Abort,
    alloc: Global,
    document: &str,
    words: &str,
    table: (&str, &str, usize),
) {
    let (between, text, count) = table;
    let mut rows: usize = 0;
    for row in text.split(between) {
        if let Some(told) = row.split_once(" => ") {
            agrees(rt, alloc, document, words, told);
            rows = rows.saturating_add(1);
        }
    }
    holds(rt, rows == count, "so many rows");
}
