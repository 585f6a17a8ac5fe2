//! What goes out of an inner frame.

use hvpls_spokes::PortSet;
use net_base::Arrival;

/// What goes out of an inner frame: a copy of its octets by each of the targets.
#[derive(Clone, Copy)]
pub struct Egress<'a> {
    /// The circuit or the wire that it came by.
    pub came: Arrival,
    /// Ports of its service.
    pub targets: &'a PortSet,
    pub frame: &'a [u8],
}
