//! What the plan says of another edge.

use net_values::Addr;

/// An edge of the plan beside the one whose adjacencies these are.
#[derive(Clone, Copy, Debug, PartialEq, Eq)]
pub struct Neighbour {
    pub address: Addr,
    /// A segment of some wire joins the two edges.
    pub joined: bool,
}
