//! The tables of a network.
ghost use Rattle.std.specs.Prelude.{◌<◌, length};
ghost use Rattle.net_base.specs.plan.Accepted.{IsChecked};
ghost use Rattle.network_model.specs.State.{edge_at};
ghost use Rattle.psn_net.specs.Lists.{network_seen};
ghost use Rattle.tables_text.specs.Tables.{edge_text, tables};
ghost use Rattle.text_lines.specs.Written.{PutsOn};

use crate::edge_text::put_edge;
use crate::sorting::Sorting;
use net_base::{EdgeId, Failed, Sink};
use psn_net::Network;
use text_lines::Page;

// Puts all that is told of the edge at a place.
fn put_place<K: Sink>(
    page: &mut Page,
    sink: &mut K,
    sorting: &mut Sorting,
    network: &Network,
    place: usize,
) -> Result<(), Failed>
    requires place { place < length network.now.plan.edges }
    requires checked { IsChecked network.now.plan }
    ensures { PutsOn K.taken K.faults page.old page.new sink.old sink.new result (edge_text network.now.plan (record { 0 = place }) (edge_at (network_seen network.now) (record { 0 = place }))) }
{
    match network.edge(EdgeId(place as u16)) {
        Some(edge) => put_edge(page, sink, sorting, edge),
        None => Ok(()),
    }
}

/// Puts the tables of a network, edge by edge in the plan's order: the edge and the label that it gives next; its session with each
/// neighbour; each of its ends, with the labels of both sides and whether it forwards; and each address that it has learned. It takes
/// no memory: `sorting` is the room in which addresses are put in order. After `Failed` a front of what waited and of the tables was
/// taken, and the sink counted a fault.
pub fn put_tables<K: Sink>(
    page: &mut Page,
    sink: &mut K,
    sorting: &mut Sorting,
    network: &Network,
) -> Result<(), Failed>
    ensures { PutsOn K.taken K.faults page.old page.new sink.old sink.new result (tables network.now.plan (network_seen network.now)) }
{
    for place in 0..network.count() {
        put_place(page, sink, sorting, network, place)?;
    }
    Ok(())
}
