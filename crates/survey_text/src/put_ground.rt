//! The lines of what there is before each case.
ghost use Rattle.std.specs.Prelude.{◌<◌, length};
ghost use Rattle.network_model.specs.State.{NetworkState};
ghost use Rattle.survey_text.specs.Surveys.{AreServices, IsOver};
ghost use Rattle.survey_text.specs.Text.{ground_text, label_line, label_lines, service_text, service_texts};
ghost use Rattle.text_lines.specs.Written.{PutsOn};

use crate::over::Over;
use crate::service::Service;
use line_shapes::edge_word;
use net_base::{EdgeId, Failed, Sink};
use text_lines::Page;

// Puts the lines of the service at a place.
fn put_service<K: Sink>(
    page: &mut Page,
    sink: &mut K,
    over: Over<'_>,
    services: &[Service],
    place: usize,
) -> Result<(), Failed>
    ghost before: { NetworkState }
    requires over { IsOver before over }
    requires services { AreServices over.plan.now before services.now }
    requires place { place < length over.plan.now.services }
    ensures { PutsOn K.taken K.faults page.old page.new sink.old sink.new result (service_text over.entry.plan.now before (record { 0 = place })) }
{
    services[place].put(page, sink, over)
}

// Puts those of all.
fn put_services<K: Sink>(
    page: &mut Page,
    sink: &mut K,
    over: Over<'_>,
    services: &[Service],
) -> Result<(), Failed>
    ghost before: { NetworkState }
    requires over { IsOver before over }
    requires services { AreServices over.plan.now before services.now }
    ensures { PutsOn K.taken K.faults page.old page.new sink.old sink.new result (service_texts over.entry.plan.now before 0 over.entry.plan.now.services) }
{
    for place in 0..over.plan.services.len() {
        put_service(page, sink, over, services, place)?;
    }
    Ok(())
}

// Puts the line of an edge that has no label to give.
#[tactic(auto, using(text_lines::proofs::WrittenLemmas::goes_none))]
fn put_label<K: Sink>(
    page: &mut Page,
    sink: &mut K,
    over: Over<'_>,
    edge: usize,
) -> Result<(), Failed>
    ghost before: { NetworkState }
    requires over { IsOver before over }
    requires edge { edge < length over.plan.now.edges }
    ensures { PutsOn K.taken K.faults page.old page.new sink.old sink.new result (label_line over.entry.plan.now before edge) }
{
    if over.ground.labels[edge] {
        Ok(())
    } else {
        page.put_line(
            sink,
            b"no_label",
            &[edge_word(over.plan, EdgeId(edge as u16))],
        )
    }
}

// Puts those of all.
fn put_labels<K: Sink>(page: &mut Page, sink: &mut K, over: Over<'_>) -> Result<(), Failed>
    ghost before: { NetworkState }
    requires over { IsOver before over }
    ensures { PutsOn K.taken K.faults page.old page.new sink.old sink.new result (label_lines over.entry.plan.now before 0 over.entry.plan.now.edges) }
{
    for edge in 0..over.plan.edges.len() {
        put_label(page, sink, over, edge)?;
    }
    Ok(())
}

/// Puts the lines of what there is before each case: service by service, and edge by edge.
pub fn put_ground<K: Sink>(
    page: &mut Page,
    sink: &mut K,
    over: Over<'_>,
    services: &[Service],
) -> Result<(), Failed>
    ghost before: { NetworkState }
    requires over { IsOver before over }
    requires services { AreServices over.plan.now before services.now }
    ensures { PutsOn K.taken K.faults page.old page.new sink.old sink.new result (ground_text over.entry.plan.now before) }
{
    match put_services(page, sink, over, services) {
        Ok(()) => put_labels(page, sink, over),
        Err(fault) => Err(fault),
    }
}
