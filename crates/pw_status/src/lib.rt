//! The status of a pseudowire and how it is told (RFC 8077 section 6.3, RFC 4446 section 3.5, RFC 6870).
//!
//! The bits have their meaning in `specs/Status.antt`.
#![tactic(auto)]

mod bits;
mod laws;
mod method;

pub use bits::{combine, fails, standby};
pub use laws::combined_again;
pub use method::{Method, method_of};
