//! What an edge works with on one input.

use edge_model::Effects;
use std::alloc::Global;

/// What an edge works with on one input.
#[derive(Drop)]
pub struct AtWork<'a, L> {
    /// Where memory is taken from.
    pub alloc: Global,
    /// The link to the neighbours.
    pub link: &'a mut L,
    /// What is given out so far.
    pub effects: &'a mut Effects,
}
