//! Rows of the table `wire`.

use crate::offer_row::OfferRow;
use net_base::{Class, List, Name};

/// A row of `wire`, whose service and edges are not looked up yet.
#[derive(Drop)]
pub struct WireRow {
    pub name: Name,
    pub service: Name,
    pub class: Class,
    pub path: List<Name>,
    pub pw_id: u32,
    pub priority: u8,
    pub near: OfferRow,
    pub far: OfferRow,
}
