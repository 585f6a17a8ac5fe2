//! A port of a service at an edge.
ghost use Rattle.std.specs.Prelude.{◌≡◌};
ghost use Rattle.hvpls_spokes.specs.Port.{port_kind_of};

use crate::PortKind;
use net_base::{CircuitId, WireId};

/// What a port of a service leads to.
#[derive(Clone, Copy, Debug, PartialEq, Eq)]
pub enum Port {
    /// An attachment circuit.
    Circuit(CircuitId),
    /// A mesh wire.
    Mesh(WireId),
    /// A spoke wire.
    Spoke(WireId),
}

impl Port {
    /// The kind of the port.
    pub fn kind(self) -> PortKind
        ensures { result ≡ port_kind_of self }
    {
        match self {
            Port::Circuit(_) => PortKind::Circuit,
            Port::Mesh(_) => PortKind::Mesh,
            Port::Spoke(_) => PortKind::Spoke,
        }
    }
}
