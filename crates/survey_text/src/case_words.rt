//! The events that make a case.
ghost use Rattle.std.specs.Prelude.{◌≡◌, ◌++◌, codes};
ghost use Rattle.net_base.specs.plan.Places.{wire_row};
ghost use Rattle.survey_text.specs.Text.{case_end, case_words, edge_or_none, event_of, fault_words, first_of_row, later_words};
ghost use Rattle.text_lines.specs.Written.{PutsOn};
ghost use Rattle.text_pieces.specs.Pieces.{spaced};

use crate::words::{put_end, put_words};
use event_rows::words_of_event;
use net_base::{EdgeId, Event, Failed, Plan, Sink, WireId, first_of};
use survey_laws::Fault;
use text_lines::Page;

// The first edge of a wire.
fn first_edge(plan: &Plan, wire: WireId) -> EdgeId
    ensures { result ≡ edge_or_none (first_of_row (wire_row plan.now wire)) }
{
    match plan.wires.get(wire.0 as usize) {
        Some(row) => match first_of(row.path.as_slice()) {
            Some(edge) => edge,
            None => EdgeId(0),
        },
        None => EdgeId(0),
    }
}

/// The event that makes a fault.
pub fn event_of(plan: &Plan, fault: Fault) -> Event
    ensures { result ≡ event_of plan.now fault }
{
    match fault {
        Fault::Session { one, other } => Event::Lose {
            edge: one,
            peer: other,
        },
        Fault::Edge { edge } => Event::Restart { edge },
        Fault::Wire { wire } => Event::Wire {
            edge: first_edge(plan, wire),
            wire,
            on: false,
        },
        Fault::Priority { wire, priority } => Event::Priority {
            edge: first_edge(plan, wire),
            wire,
            priority,
        },
        Fault::Circuit { circuit } => Event::Circuit { circuit, on: false },
    }
}

// Puts the words of an event, a blank before each.
fn put_event<K: Sink>(
    page: &mut Page,
    sink: &mut K,
    plan: &Plan,
    fault: Fault,
) -> Result<(), Failed>
    ensures { PutsOn K.taken K.faults page.old page.new sink.old sink.new result (spaced (fault_words plan.now fault)) }
{
    let event = event_of(plan, fault);
    let words = words_of_event(plan, &event);
    put_words(page, sink, words.as_slice())
}

// The same behind a plus.
fn put_plus<K: Sink>(page: &mut Page, sink: &mut K, plan: &Plan, fault: Fault) -> Result<(), Failed>
    ensures { PutsOn K.taken K.faults page.old page.new sink.old sink.new result (codes " +" ++ spaced (fault_words plan.now fault)) }
{
    match page.put(sink, b" +") {
        Ok(()) => put_event(page, sink, plan, fault),
        Err(fault) => Err(fault),
    }
}

// Puts the words of further events, a plus before each.
fn put_later<K: Sink>(
    page: &mut Page,
    sink: &mut K,
    plan: &Plan,
    faults: &[Fault],
) -> Result<(), Failed>
    ensures { PutsOn K.taken K.faults page.old page.new sink.old sink.new result (spaced (later_words plan.now faults.now)) }
{
    for fault in faults {
        put_plus(page, sink, plan, *fault)?;
    }
    Ok(())
}

// Puts the words of a first event and of further ones.
fn put_some<K: Sink>(
    page: &mut Page,
    sink: &mut K,
    plan: &Plan,
    first: Fault,
    later: &[Fault],
) -> Result<(), Failed>
    ensures { PutsOn K.taken K.faults page.old page.new sink.old sink.new result (spaced (fault_words plan.now first) ++ spaced (later_words plan.now later.now)) }
{
    match put_event(page, sink, plan, first) {
        Ok(()) => put_later(page, sink, plan, later),
        Err(fault) => Err(fault),
    }
}

// Puts the words of all events of a case.
#[tactic(auto, using(text_lines::proofs::WrittenLemmas::goes_none, crate::proofs::SiteLemmas::spaced_two))]
fn put_all<K: Sink>(
    page: &mut Page,
    sink: &mut K,
    plan: &Plan,
    faults: &[Fault],
) -> Result<(), Failed>
    ensures { PutsOn K.taken K.faults page.old page.new sink.old sink.new result (spaced (case_words plan.now faults.now)) }
{
    match faults {
        [] => Ok(()),
        [first, later @ ..] => put_some(page, sink, plan, *first, later),
    }
}

/// Puts the events of a case, a plus between two, and the line's end.
pub fn put_case_words<K: Sink>(
    page: &mut Page,
    sink: &mut K,
    plan: &Plan,
    faults: &[Fault],
) -> Result<(), Failed>
    ensures { PutsOn K.taken K.faults page.old page.new sink.old sink.new result (case_end plan.now faults.now) }
{
    match put_all(page, sink, plan, faults) {
        Ok(()) => put_end(page, sink),
        Err(fault) => Err(fault),
    }
}
