//! Traces with notes.

use discovery_script::PlacedNote;
use net_base::Entry;

/// The trace of a network, and the notes that stand between its entries.
#[derive(Clone, Copy)]
pub struct NotedTrace<'a> {
    pub trace: &'a [Entry],
    /// Each stands behind as many entries as it tells.
    pub notes: &'a [PlacedNote],
}
