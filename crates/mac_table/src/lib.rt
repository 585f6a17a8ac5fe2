//! The addresses that a bridge has learned, each with the port by which it came (RFC 4762 section 4.2).
//!
//! A table takes memory only where it is opened. Its definitions stand in `specs/Addresses.antt`.
#![tactic(auto)]

mod edits;
mod held;
mod index;
mod laws;
mod learned;
mod mac_entry;
mod mac_table;
mod removal;
mod search;
mod stored;
mod way;

pub use laws::lasts_its_age;
pub use learned::Learned;
pub use mac_entry::MacEntry;
pub use mac_table::MacTable;
