//! Where a frame comes in.

use net_base::{Arrival, ServiceId};

/// Where a frame comes in at an edge.
#[derive(Clone, Copy)]
pub struct Ingress {
    /// The circuit or the wire that it comes by.
    pub came: Arrival,
    pub service: ServiceId,
    /// The port of the service's bridge; none where the service has no such port at the edge.
    pub port: Option<u16>,
}
