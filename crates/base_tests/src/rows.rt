//! Tables of rows: each has octets or a step, and behind `= ` what they come to. Other lines are words for a reader.

use crate::hex::octets_of;
use crate::ldp::pdus::rows as pdus;
use crate::ldp::values;
use crate::words::holds;
use crate::{captures, frames, plans};
use std::alloc::Global;
use std::process::Abort;

/// What a table is about.
#[derive(Clone, Copy)]
pub enum About {
    /// PDUs: the message or the fault that they come to. Of those both ways, the message is also written as these octets; of
    /// those one way, it cannot be written.
    Pdus,
    BothWays,
    OneWay,
    /// FECs; the written ones are also written as these octets.
    Fecs,
    WrittenFecs,
    /// Switching points, statuses and lists of MAC addresses, which are also written as these octets.
    Points,
    Statuses,
    Macs,
    /// The octets behind this header of a capture: its frames or its fault.
    Captures(&'static str),
    /// The steps of one frame, and the wires of a plan: its first fault.
    Frames,
    Plans,
}

// Digits are octets that agree.
fn are_octets(rt: &impl Abort, alloc: Global, about: About, digits: &str, words: &str) {
    let octets = octets_of(rt, alloc, digits);
    match about {
        About::Pdus | About::BothWays | About::OneWay => {
            pdus::agrees(rt, alloc, about, octets.as_slice(), words)
        }
        _ => values::agrees(rt, alloc, about, octets.as_slice(), words),
    }
}

// What stands before and behind `= ` in a row agrees.
fn agrees(rt: &impl Abort, alloc: Global, about: About, row: &str, words: &str) {
    match about {
        About::Captures(header) => captures::agrees(rt, alloc, header, row, words),
        About::Frames => frames::agrees(rt, alloc, row.trim(), words),
        About::Plans => plans::has_first_fault(rt, alloc, row.trim(), words),
        _ => are_octets(rt, alloc, about, row, words),
    }
}

/// Each of so many rows of a table agrees.
pub fn reads_as(rt: &impl Abort, alloc: Global, about: About, table: &str, count: usize) {
    let mut rows: usize = 0;
    for line in table.lines() {
        if let Some((row, words)) = line.split_once("= ") {
            agrees(rt, alloc, about, row, words);
            rows = rows.saturating_add(1);
        }
    }
    holds(rt, rows == count, "so many rows");
}
