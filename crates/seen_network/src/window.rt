//! The window of a frame.

use hvpls_spokes::PortSet;
use net_base::{CircuitId, ServiceId};
use net_values::Mac;

/// The window of a frame that entered a calm service: from the event by which it entered until no copy of it is under way.
#[derive(Clone, Copy)]
pub struct Window {
    /// So many entries stand before the one by which the frame entered.
    pub place: u64,
    /// The circuit at which it entered.
    pub sender: CircuitId,
    pub service: ServiceId,
    /// The number under which it entered.
    pub origin: u64,
    /// Where it goes; `None` for a frame to a group.
    pub destination: Option<Mac>,
    /// The circuits at which it has to leave, by their places.
    pub sites: PortSet,
}
