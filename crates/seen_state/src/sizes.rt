//! How many edges, wires and circuits there are.

/// How many edges, wires and circuits a plan has.
#[derive(Clone, Copy, Debug, PartialEq, Eq)]
pub struct Sizes {
    pub edges: usize,
    pub wires: usize,
    pub circuits: usize,
}
