//! The entry that a line tells.
ghost use Rattle.std.specs.Prelude.{◌≡◌, map, IfOk};
ghost use Rattle.plan_names.specs.Planned.{names_of};
ghost use Rattle.report_text.specs.Named.{IsEntryNamed};
ghost use Rattle.report_entries.specs.{Entries.{line_entry}, Reading.{Reads, line_words}};

use crate::Unread;
use crate::entry::words_entry;
use net_base::{Entry, Plan};
use plan_names::PlanNames;
use std::alloc::Global;

/// The entry of a line with these words. No two words say the same, so that this is its line; and what is read names places of the plan.
#[tactic(auto, using(crate::proofs::ReadLemmas::reads_line_of, crate::proofs::ReadLemmas::names_places))]
pub fn line_entry(
    alloc: Global,
    plan: &Plan,
    names: &PlanNames<'_>,
    line: &[u8],
    words: &[&[u8]],
) -> Result<Entry, Unread>
    requires names { names.now ≡ names_of plan.now }
    requires words { map (λ w. w.now) words.now ≡ line_words line.now }
    ensures read { Reads result (line_entry plan.now line.now) }
    ensures named { IfOk result (IsEntryNamed plan.now) }
{
    words_entry(alloc, plan, names, words)
}
