//! What a line of a script works with.

use net_base::List;
use std::alloc::Global;
use switchover_model::SwitchEntry;

/// Where the memory of a line is taken from, and what is told of it so far.
#[derive(Drop)]
pub(crate) struct AtLine {
    pub(crate) alloc: Global,
    pub(crate) out: List<SwitchEntry>,
}
