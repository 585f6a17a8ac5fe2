//! The ground of a network.
use crate::EdgePairs;
use net_base::Plan;
use survey_laws::Fault;

/// What of a network decides whom a frame reaches once all has settled. `survey_net` takes it from a network.
#[derive(Drop)]
pub struct Ground {
    /// Of each wire, whether it is sound: on along its path, connected, clear at both ends, with offers that agree.
    pub sound: Vec<bool>,
    /// Of each wire, the priority number at the first edge of its path (RFC 6870).
    pub numbers: Vec<u8>,
    /// Of each circuit, whether it is on.
    pub on: Vec<bool>,
    /// The pairs of edges of which both ends of the connection stand.
    pub connected: EdgePairs,
    /// Of each edge, whether it has a label to give.
    pub labels: Vec<bool>,
}

/// The ground of a network on which faults have befallen.
#[derive(Clone, Copy)]
pub struct FailedGround<'a> {
    pub plan: &'a Plan,
    pub ground: &'a Ground,
    pub faults: &'a [Fault],
}
