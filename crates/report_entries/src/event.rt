//! The events that lines tell.
ghost use Rattle.std.specs.Prelude.{◌≡◌, map};
ghost use Rattle.plan_names.specs.Planned.{names_of};
ghost use Rattle.report_entries.specs.Events.{event_told, frame_told, row_event};
ghost use Rattle.report_entries.specs.Reading.{Reads};

use crate::Unread;
use crate::told_words::ToldWords;
use crate::values::{circuit, octets};
use event_rows::{event_made, event_shapes};
use line_shapes::{is_word, read_shaped};
use net_base::{Event, Plan};
use plan_names::PlanNames;
use std::alloc::Global;

// The event of words, by their row.
#[tactic(auto, unfolding(crate::specs::Events::row_event))]
fn row_event(plan: &Plan, names: &PlanNames<'_>, words: &[&[u8]]) -> Result<Event, Unread>
    requires names { names.now ≡ names_of plan.now }
    ensures { Reads result (row_event plan.now (map (λ w. w.now) words.now)) }
{
    match read_shaped(plan, names, event_shapes(), &ToldWords { words }) {
        Ok((row, values)) => Ok(event_made(plan, row, &values)),
        Err(_) => Err(Unread::NoEntry),
    }
}

// `frame C HEX`, with 0 to 262,144 octets.
#[tactic(auto, unfolding(crate::specs::Events::frame_told))]
fn frame(alloc: Global, names: &PlanNames<'_>, words: &[&[u8]]) -> Result<Event, Unread>
    ensures { Reads result (frame_told names.now (map (λ w. w.now) words.now)) }
{
    match words {
        [at, digits] => {
            let at = circuit(names, at)?;
            let bytes = octets(alloc, digits)?;
            if bytes.len() > 262_144 {
                return Err(Unread::NoEntry);
            }
            Ok(Event::Frame { circuit: at, bytes })
        }
        _ => Err(Unread::NoEntry),
    }
}

/// The event that the words behind the first one tell.
pub fn event(
    alloc: Global,
    plan: &Plan,
    names: &PlanNames<'_>,
    words: &[&[u8]],
) -> Result<Event, Unread>
    requires names { names.now ≡ names_of plan.now }
    ensures { Reads result (event_told plan.now (map (λ w. w.now) words.now)) }
{
    match words {
        [kind, behind @ ..] => {
            if is_word(kind, "frame") {
                frame(alloc, names, behind)
            } else {
                row_event(plan, names, words)
            }
        }
        [] => Err(Unread::NoEntry),
    }
}
