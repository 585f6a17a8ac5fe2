//! The rows of a document that give edges their ports.

use crate::circuit_row::CircuitRow;
use crate::wire_row::WireRow;

/// The rows of circuits and those of wires of a document.
#[derive(Clone, Copy)]
pub struct PortRows<'a> {
    pub circuits: &'a [CircuitRow],
    pub wires: &'a [WireRow],
}
