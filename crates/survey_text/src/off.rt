//! The circuits of a service that are off.
ghost use Rattle.std.specs.Prelude.{◌≡◌, codes, slice_get};
ghost use Rattle.network_model.specs.State.{NetworkState};
ghost use Rattle.survey_text.specs.{Surveys.{IsOver}, Text.{any_off, is_off_row, name_off, names_line, names_off, off_line}};
ghost use Rattle.text_lines.specs.Written.{PutsOn};
ghost use Rattle.text_pieces.specs.Pieces.{spaced};

use crate::over::OverService;
use crate::words::{put_end, put_head};
use net_base::{Failed, Sink};
use text_lines::{LineWord, Page};

// Whether the circuit at a place is one.
fn is_off(of: OverService<'_>, circuit: usize) -> bool
    ghost before: { NetworkState }
    requires over { IsOver before of.over }
    ensures { result ≡ is_off_row before of.entry.service circuit (slice_get of.entry.over.plan.now.circuits circuit) }
{
    match of.over.plan.circuits.get(circuit) {
        Some(row) => of.over.is_off(of.service, circuit, row),
        None => false,
    }
}

// Whether there is one.
#[tactic(auto, using(crate::proofs::SiteLemmas::off_step))]
fn has_off(of: OverService<'_>) -> bool
    ghost before: { NetworkState }
    requires over { IsOver before of.over }
    ensures { result ≡ any_off before of.entry.service 0 of.entry.over.plan.now.circuits }
{
    for circuit in 0..of.over.plan.circuits.len() {
        if is_off(of, circuit) {
            return true;
        }
    }
    false
}

// Puts the name of a circuit behind a blank, where it is one.
fn put_name<K: Sink>(
    page: &mut Page,
    sink: &mut K,
    of: OverService<'_>,
    circuit: usize,
) -> Result<(), Failed>
    ghost before: { NetworkState }
    requires over { IsOver before of.over }
    ensures { PutsOn K.taken K.faults page.old page.new sink.old sink.new result (spaced (name_off before of.entry.service circuit (slice_get of.entry.over.plan.now.circuits circuit))) }
{
    match of.over.plan.circuits.get(circuit) {
        Some(row) => {
            if of.over.is_off(of.service, circuit, row) {
                page.put_next(sink, LineWord::Text(row.name.as_slice()))
            } else {
                Ok(())
            }
        }
        None => Ok(()),
    }
}

// Puts their names, a blank before each.
fn put_names<K: Sink>(page: &mut Page, sink: &mut K, of: OverService<'_>) -> Result<(), Failed>
    ghost before: { NetworkState }
    requires over { IsOver before of.over }
    ensures { PutsOn K.taken K.faults page.old page.new sink.old sink.new result (spaced (names_off before of.entry.service 0 of.entry.over.plan.now.circuits)) }
{
    for circuit in 0..of.over.plan.circuits.len() {
        put_name(page, sink, of, circuit)?;
    }
    Ok(())
}

// Puts their line.
fn put_line<K: Sink>(page: &mut Page, sink: &mut K, of: OverService<'_>) -> Result<(), Failed>
    ghost before: { NetworkState }
    requires over { IsOver before of.over }
    ensures { PutsOn K.taken K.faults page.old page.new sink.old sink.new result (names_line of.entry.over.plan.now of.entry.service (codes "off") (names_off before of.entry.service 0 of.entry.over.plan.now.circuits)) }
{
    put_head(page, sink, of, b"off")?;
    put_names(page, sink, of)?;
    put_end(page, sink)
}

/// Puts the line of the circuits of a service that are off, where there are some.
#[tactic(auto, using(text_lines::proofs::WrittenLemmas::goes_none))]
pub fn put_off<K: Sink>(page: &mut Page, sink: &mut K, of: OverService<'_>) -> Result<(), Failed>
    ghost before: { NetworkState }
    requires over { IsOver before of.over }
    ensures { PutsOn K.taken K.faults page.old page.new sink.old sink.new result (off_line of.entry.over.plan.now before of.entry.service) }
{
    if has_off(of) {
        put_line(page, sink, of)
    } else {
        Ok(())
    }
}
