//! What the plan says of a service.

use edge_model::EndPlace;
use net_base::{List, ServiceId};

/// What the plan says of a service: which edges start spokes of it, and the ends of these by edges, each in the plan's order.
#[derive(Drop)]
pub struct Shape {
    pub service: ServiceId,
    pub starts: List<bool>,
    pub spokes: List<List<EndPlace>>,
}
