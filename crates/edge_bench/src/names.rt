//! The rows that an input names.
ghost use Rattle.std.specs.Prelude.{◌<◌, length, IfSome};

use net_base::{CircuitId, EdgeId, Plan, WireId};

/// The edge of this name.
pub fn edge_of(plan: &Plan, name: &str) -> Option<EdgeId>
    ensures { IfSome result (λ edge. edge.0 < length plan.now.edges) }
{
    let rows = plan.edges.as_slice();
    let place = rows
        .iter()
        .position(|row| row.name.as_slice() == name.as_bytes())?;
    Some(EdgeId(u16::try_from(place).ok()?))
}

/// The circuit of this name.
pub fn circuit_of(plan: &Plan, name: &str) -> Option<CircuitId> {
    let rows = plan.circuits.as_slice();
    let place = rows
        .iter()
        .position(|row| row.name.as_slice() == name.as_bytes())?;
    Some(CircuitId(u16::try_from(place).ok()?))
}

/// The wire of this name.
pub fn wire_of(plan: &Plan, name: &str) -> Option<WireId> {
    let rows = plan.wires.as_slice();
    let place = rows
        .iter()
        .position(|row| row.name.as_slice() == name.as_bytes())?;
    Some(WireId(u16::try_from(place).ok()?))
}
