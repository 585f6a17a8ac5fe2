//! PDUs that were worked out by hand.

mod faults;
mod messages;
mod reading;
pub mod rows;
mod writing;
