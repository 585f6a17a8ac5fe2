//! The lines of the addresses that an edge has learned.
ghost use Rattle.std.specs.Prelude.{◌≡◌, ◌<◌, ◌≤◌, length, map};
ghost use Rattle.net_base.specs.plan.Accepted.{IsWithinLimits};
ghost use Rattle.edge_model.specs.State.{addresses_of};
ghost use Rattle.hvpls_spokes.specs.Port.{ports_of};
ghost use Rattle.provider_edge.specs.Lists.{seen};
ghost use Rattle.tables_text.specs.Tables.{address_line, address_lines, address_words, port_name, service_lines, service_name, service_text};
ghost use Rattle.text_lines.specs.{Lines.{word_octets}, Written.{PutsOn}};

use crate::sorting::Sorting;
use hvpls_spokes::{Port, Ports};
use line_shapes::{circuit_word, wire_word};
use mac_table::{MacEntry, MacTable};
use net_base::{Failed, Plan, ServiceId, Sink};
use provider_edge::Edge;
use text_lines::{LineWord, Page};
use vsi_bridge::Bridge;

// A port by the name of its circuit or wire.
fn port_word(plan: &Plan, port: Option<Port>) -> LineWord<'_>
    ensures { word_octets result ≡ port_name plan.now port }
{
    match port {
        Some(Port::Circuit(place)) => circuit_word(plan, place),
        Some(Port::Mesh(place)) | Some(Port::Spoke(place)) => wire_word(plan, place),
        None => LineWord::Text(&[]),
    }
}

// What the lines of the addresses of a service have in common: its name, and by whose names its ports are told.
#[derive(Clone, Copy)]
struct Service<'a> {
    plan: &'a Plan,
    name: &'a [u8],
    ports: &'a Ports,
}

// The words of an address behind the first one.
fn words<'a>(service: &Service<'a>, entry: &'a MacEntry) -> [LineWord<'a>; 4]
    ensures { map word_octets result ≡ address_words service.now.plan.now service.now.name.now service.now.ports.now entry.now }
{
    [
        LineWord::Text(service.name),
        LineWord::Hex(&entry.address.0),
        port_word(service.plan, service.ports.get(entry.port)),
        LineWord::Number(entry.tick),
    ]
}

// Puts the line of an address.
fn put_entry<K: Sink>(
    page: &mut Page,
    sink: &mut K,
    service: &Service<'_>,
    entry: &MacEntry,
) -> Result<(), Failed>
    ensures { PutsOn K.taken K.faults page.old page.new sink.old sink.new result (address_line service.now.plan.now service.now.name.now service.now.ports.now entry.now) }
{
    page.put_line(sink, b"mac", &words(service, entry))
}

// Puts the lines of addresses.
fn put_entries<K: Sink>(
    page: &mut Page,
    sink: &mut K,
    service: &Service<'_>,
    entries: &[MacEntry],
) -> Result<(), Failed>
    ensures { PutsOn K.taken K.faults page.old page.new sink.old sink.new result (address_lines service.now.plan.now service.now.name.now service.now.ports.now entries.now) }
{
    for entry in entries {
        put_entry(page, sink, service, entry)?;
    }
    Ok(())
}

// The addresses of a bridge, at most 4,096.
fn table_in(bridge: &Bridge) -> &MacTable
    ensures table { result.now.entries ≡ bridge.now.entries }
    ensures few { length result.now.entries ≤ 4096 }
{
    let table = bridge.table();
    // Asked so that how many there are at most is at hand for the proof.
    let _count = table.len();
    table
}

// The service at a place, over the ports of its bridge. Its name is empty outside the plan.
fn service_over<'a>(edge: &'a Edge, place: usize, bridge: &'a Bridge) -> Service<'a>
    ensures plan { result.plan.now ≡ edge.now.plan }
    ensures name { result.name.now ≡ service_name edge.now.plan place }
    ensures ports { result.ports.now ≡ bridge.now.ports }
{
    let plan = edge.plan();
    Service {
        plan,
        name: match plan.services.get(place) {
            Some(row) => row.name.as_slice(),
            None => &[],
        },
        ports: bridge.ports(),
    }
}

// Puts the lines of the addresses of a service, in order. Where it has no port at the edge, it has no bridge there.
fn put_service<K: Sink>(
    page: &mut Page,
    sink: &mut K,
    sorting: &mut Sorting,
    edge: &Edge,
    place: usize,
) -> Result<(), Failed>
    requires limits { IsWithinLimits edge.now.plan }
    requires place { place < length edge.now.plan.services }
    ensures { PutsOn K.taken K.faults page.old page.new sink.old sink.new result
        (service_text edge.now.plan (service_name edge.now.plan place) (ports_of edge.now.plan (record { 0 = place }) edge.now.me) (addresses_of (seen edge.now) (record { 0 = place }))) }
{
    match edge.bridge(ServiceId(place as u16)) {
        Some(bridge) => {
            let service = service_over(edge, place, bridge);
            sorting.fill(table_in(bridge));
            put_entries(page, sink, &service, sorting.as_slice())
        }
        None => Ok(()),
    }
}

/// Puts the lines of the addresses that an edge has learned, service by service in the plan's order, each by its octets.
pub fn put_addresses<K: Sink>(
    page: &mut Page,
    sink: &mut K,
    sorting: &mut Sorting,
    edge: &Edge,
) -> Result<(), Failed>
    requires { IsWithinLimits edge.now.plan }
    ensures { PutsOn K.taken K.faults page.old page.new sink.old sink.new result (service_lines edge.now.plan edge.now.me (seen edge.now) 0 edge.now.plan.services) }
{
    for place in 0..edge.plan().services.len() {
        put_service(page, sink, sorting, edge, place)?;
    }
    Ok(())
}
