//! The network of edges in independent mode (RFC 6870 section 4): the octets on their way between them, what each line of a script makes
//! of it and tells of it, and what holds after every script. This crate runs nothing: its definitions stand in `specs/`, and each
//! function below has an empty body and a law as its contract.
#![tactic(auto)]

mod laws;
mod switch_entry;
mod switch_line;

pub use laws::{deliveries_go_on, heard_in_parts, scripts_agree};
pub use switch_entry::SwitchEntry;
pub use switch_line::SwitchLine;
