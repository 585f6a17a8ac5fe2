//! An edge in independent mode (RFC 6870 section 4), as it is defined: what it does on each call, over any answers of a link.
//!
//! `specs/Calls.antt` has the calls, `specs/Hear.antt` how it hears octets, `specs/Tell.antt` what it tells, and `specs/Stops.antt` how
//! calls end.
#![tactic(auto)]

mod indep_stop;
mod laws;

pub use indep_stop::IndepStop;
pub use laws::{calls_end, hears_parsed};
