//! The names that commands speak of.

use crate::name_index::NameIndex;

/// The names of a plan, by which commands name its rows.
#[derive(Drop)]
pub struct PlanNames<'a> {
    pub edges: NameIndex<'a>,
    pub circuits: NameIndex<'a>,
    pub wires: NameIndex<'a>,
}
