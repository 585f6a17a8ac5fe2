//! Rows of the table `group`.

use net_base::Name;

/// A row of `group`.
#[derive(Clone, Copy)]
pub struct GroupRow {
    pub name: Name,
    /// The Group ID, 1 to 4294967295.
    pub number: u32,
}
