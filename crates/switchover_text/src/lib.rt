//! What a script of independent mode has made of a network (RFC 6870 section 4), as text: each line of the script, and under it a line for
//! each thing that was told of it.
//!
//! `specs/Text.antt` has the lines.
#![tactic(auto)]

mod entry;
mod line;
mod report;

pub use report::put_switchover;
