//! The tables of a network as text: what every edge holds.
//!
//! `specs/Tables.antt` has the lines, and `specs/Addresses.antt` the order of learned addresses.
#![tactic(auto)]

mod addresses;
mod edge_text;
mod ends;
mod sessions;
mod sorting;
mod tables;

pub use sorting::Sorting;
pub use tables::put_tables;
