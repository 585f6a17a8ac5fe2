//! Rows of the table `circuit`.

use net_base::Name;

/// A row of `circuit`, whose edge and service are not looked up yet.
#[derive(Clone, Copy)]
pub struct CircuitRow {
    pub name: Name,
    pub edge: Name,
    pub service: Name,
    /// 1 to 4094, or none.
    pub tag: Option<u16>,
}
