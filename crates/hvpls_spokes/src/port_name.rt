//! What names a port.

use net_base::{CircuitId, WireId};

/// What names a port of a service: its circuit, or its wire of either class.
#[derive(Clone, Copy, Debug, PartialEq, Eq)]
pub enum PortName {
    /// An attachment circuit.
    Circuit(CircuitId),
    /// A mesh wire or a spoke.
    Wire(WireId),
}
