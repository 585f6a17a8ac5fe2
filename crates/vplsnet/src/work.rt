//! What a run works on.

use net_base::{List, Octets};
use scenario_text::Scenario;

/// A scenario with what it plays.
#[derive(Drop)]
pub struct Work {
    pub scenario: Scenario,
    /// The frames of each capture that the scenario plays, in the order of its commands. A file that is played twice stands
    /// twice.
    pub captures: List<List<Octets>>,
}
