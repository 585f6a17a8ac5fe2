//! The groups of a document.

use crate::group_row::GroupRow;
use plan_names::NameIndex;

/// The groups of a document, and the index of their names.
#[derive(Clone, Copy)]
pub struct GroupRows<'a, 'n> {
    pub index: &'a NameIndex<'n>,
    pub rows: &'a [GroupRow],
}
