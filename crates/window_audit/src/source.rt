//! Where a frame came from.

use net_values::Mac;

/// The service that a frame entered, and its source address. They are ordered by their services, and then by their addresses.
#[derive(Clone, Copy, PartialEq, Eq, PartialOrd, Ord, Drop)]
pub struct Source {
    pub service: u16,
    pub address: Mac,
}
