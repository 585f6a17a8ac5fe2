//! The maps that the tables of a network lend: where memory is not wanting, each has what its table has.

use label_space::LabelSpace;
use net_base::{EdgeId, Label, ServiceId};
use provider_edge::Edge;
use psn_net::Network;
use vsi_bridge::Bridge;

// Whether the map of a bridge's table has each of its addresses, after so many ticks. It may have none once an address can have aged out.
fn has_addresses(bridge: &Bridge, ticks: u64) -> bool {
    let count = bridge.table().map().len();
    count == bridge.table().len() || (count == 0 && ticks >= u64::from(bridge.age()))
}

// The first label of an edge.
fn first_label(edge: &Edge) -> u32 {
    match edge.plan().edges.get(usize::from(edge.me().0)) {
        Some(row) => row.first_label,
        None => 16,
    }
}

// Whether the slots of a label space that begins at a number have each of its owned labels.
fn has_labels(labels: &LabelSpace, first: u32) -> bool {
    let mut owned: usize = 0;
    for number in first..labels.next_number() {
        if let Some(label) = Label::new(number)
            && labels.owner(label).is_some()
        {
            owned = owned.saturating_add(1);
        }
    }
    labels.slots().len() == owned
}

// Whether the maps of an edge have what its tables have, where the plan has so many services.
fn has_all(edge: &Edge, services: u16) -> bool {
    for service in 0..services {
        if let Some(bridge) = edge.bridge(ServiceId(service))
            && !has_addresses(bridge, edge.ticks())
        {
            return false;
        }
    }
    has_labels(edge.labels(), first_label(edge))
}

/// Whether the maps of every edge and service have what their tables have. A plan has at most 64 edges and 64 services.
pub fn have_all(network: &Network) -> bool {
    for place in 0..64 {
        if let Some(edge) = network.edge(EdgeId(place))
            && !has_all(edge, 64)
        {
            return false;
        }
    }
    true
}
