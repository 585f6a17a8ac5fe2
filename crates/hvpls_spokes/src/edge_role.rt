//! What an edge is to a service.

/// What an edge with a port of a service is to that service (RFC 4762 section 10.1).
#[derive(Clone, Copy, Debug, PartialEq, Eq)]
pub enum Role {
    /// It starts a spoke of the service, by which it hangs on a core edge: an MTU-s.
    SpokeEdge,
    /// It starts none: a PE-rs, which mesh wires join with the others.
    Core,
}
