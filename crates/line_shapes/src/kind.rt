//! What words say.

use crate::choice::Choice;

/// What a word behind the first one of a line says.
#[derive(Clone, Copy, Debug, PartialEq, Eq)]
pub enum Kind {
    /// The name of an edge.
    Edge,
    /// The name of a circuit.
    Circuit,
    /// The name of a wire.
    Wire,
    /// The name of a wire of two edges.
    Between,
    /// A decimal number from the first one to the second one.
    Number(u64, u64),
    /// A word of a choice.
    OneOf(Choice),
}
