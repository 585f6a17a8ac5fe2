//! The entries that lines tell.
ghost use Rattle.std.specs.Prelude.{◌≡◌, map};
ghost use Rattle.plan_names.specs.Planned.{names_of};
ghost use Rattle.report_entries.specs.Entries.{did_in, entered_in, left_in, row_entry, said_in, sent_in, words_entry};
ghost use Rattle.report_entries.specs.Reading.{Reads};

use crate::Unread;
use crate::event::event;
use crate::passed::{Carried, Passed, read_carried, read_passed};
use crate::told_words::ToldWords;
use crate::values::{circuit, edge, number, octets};
use line_shapes::{is_word, read_shaped};
use net_base::{Entry, Plan};
use plan_names::PlanNames;
use report_text::{entry_made, entry_shapes};
use std::alloc::Global;

// Octets that an edge put towards a peer.
#[tactic(auto, unfolding(crate::specs::Entries::said_in))]
fn said(alloc: Global, names: &PlanNames<'_>, words: &[&[u8]]) -> Result<Entry, Unread>
    ensures { Reads result (said_in names.now (map (λ w. w.now) words.now)) }
{
    match words {
        [from, to, digits] => {
            let from = edge(names, from)?;
            let to = edge(names, to)?;
            let bytes = octets(alloc, digits)?;
            Ok(Entry::Said { from, to, bytes })
        }
        _ => Err(Unread::NoEntry),
    }
}

// A frame that entered.
#[tactic(auto, unfolding(crate::specs::Entries::entered_in))]
fn entered(alloc: Global, names: &PlanNames<'_>, words: &[&[u8]]) -> Result<Entry, Unread>
    ensures { Reads result (entered_in names.now (map (λ w. w.now) words.now)) }
{
    match words {
        [at, count, digits] => {
            let at = circuit(names, at)?;
            let count = number(count)?;
            let bytes = octets(alloc, digits)?;
            Ok(Entry::In {
                circuit: at,
                number: count,
                bytes,
            })
        }
        _ => Err(Unread::NoEntry),
    }
}

// A packet that was sent.
#[tactic(auto, unfolding(crate::specs::Entries::sent_in))]
fn sent(alloc: Global, names: &PlanNames<'_>, words: &[&[u8]]) -> Result<Entry, Unread>
    ensures { Reads result (sent_in names.now (map (λ w. w.now) words.now)) }
{
    match words {
        [packet, from, to, words @ ..] => {
            let packet = number(packet)?;
            let from = edge(names, from)?;
            let to = edge(names, to)?;
            let Carried {
                wire: over,
                arrival: came,
                passed,
            } = read_carried(alloc, names, words)?;
            let Passed {
                origin,
                hops,
                bytes,
            } = passed;
            Ok(Entry::Sent {
                packet,
                from,
                to,
                wire: over,
                arrival: came,
                origin,
                hops,
                bytes,
            })
        }
        _ => Err(Unread::NoEntry),
    }
}

// A frame that left.
#[tactic(auto, unfolding(crate::specs::Entries::left_in))]
fn left(alloc: Global, names: &PlanNames<'_>, words: &[&[u8]]) -> Result<Entry, Unread>
    ensures { Reads result (left_in names.now (map (λ w. w.now) words.now)) }
{
    match words {
        [at, words @ ..] => {
            let at = circuit(names, at)?;
            let Passed {
                origin,
                hops,
                bytes,
            } = read_passed(alloc, words)?;
            Ok(Entry::Left {
                circuit: at,
                origin,
                hops,
                bytes,
            })
        }
        _ => Err(Unread::NoEntry),
    }
}

// The entry of words, by their row.
#[tactic(auto, unfolding(crate::specs::Entries::row_entry))]
fn row_entry(plan: &Plan, names: &PlanNames<'_>, words: &[&[u8]]) -> Result<Entry, Unread>
    requires names { names.now ≡ names_of plan.now }
    ensures { Reads result (row_entry plan.now (map (λ w. w.now) words.now)) }
{
    match read_shaped(plan, names, entry_shapes(), &ToldWords { words }) {
        Ok((row, values)) => Ok(entry_made(plan, row, &values)),
        Err(_) => Err(Unread::NoEntry),
    }
}

// An event that was done.
fn did(alloc: Global, plan: &Plan, names: &PlanNames<'_>, words: &[&[u8]]) -> Result<Entry, Unread>
    requires names { names.now ≡ names_of plan.now }
    ensures { Reads result (did_in plan.now (map (λ w. w.now) words.now)) }
{
    match event(alloc, plan, names, words) {
        Ok(event) => Ok(Entry::Did { event }),
        Err(fault) => Err(fault),
    }
}

/// The entry that the words of a line tell.
#[tactic(auto, unfolding(crate::specs::Entries::told_entry_of))]
pub fn words_entry(
    alloc: Global,
    plan: &Plan,
    names: &PlanNames<'_>,
    words: &[&[u8]],
) -> Result<Entry, Unread>
    requires names { names.now ≡ names_of plan.now }
    ensures { Reads result (words_entry plan.now (map (λ w. w.now) words.now)) }
{
    match words {
        [kind, behind @ ..] => {
            if is_word(kind, ">") {
                did(alloc, plan, names, behind)
            } else if is_word(kind, "in") {
                entered(alloc, names, behind)
            } else if is_word(kind, "left") {
                left(alloc, names, behind)
            } else if is_word(kind, "sent") {
                sent(alloc, names, behind)
            } else if is_word(kind, "said") {
                said(alloc, names, behind)
            } else {
                row_entry(plan, names, words)
            }
        }
        [] => Err(Unread::NoEntry),
    }
}
