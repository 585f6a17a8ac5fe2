//! The choice among the spokes that hang an edge on the core of a service, and what an end tells of that choice (RFC 4762 section
//! 10.2.1, RFC 6870 section 5.2).
//!
//! The definition of the choice stands in `specs/Choice.antt`, that of the status in `specs/Telling.antt`.
#![tactic(auto)]

mod choice;
mod spoke;
mod telling;

pub use choice::choose;
pub use spoke::Spoke;
pub use telling::status_to_tell;
