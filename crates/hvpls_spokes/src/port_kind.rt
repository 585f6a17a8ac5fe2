//! The kinds of port.

/// What kind of port a service has at an edge.
#[derive(Clone, Copy, Debug, PartialEq, Eq)]
pub enum PortKind {
    /// An attachment circuit.
    Circuit,
    /// A mesh pseudowire, under split horizon (RFC 4762 section 4.4).
    Mesh,
    /// A spoke pseudowire (RFC 4762 section 10.1).
    Spoke,
}
