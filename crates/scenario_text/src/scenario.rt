//! Scenarios.

use crate::Command;
use net_base::{List, Plan};

/// What a document says: a network, and what happens in it.
#[derive(Debug, Drop)]
pub struct Scenario {
    /// A plan that passes `Plan::check`.
    pub plan: Plan,
    /// The commands in the order of the document.
    pub commands: List<Command>,
}
