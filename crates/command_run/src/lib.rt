//! Commands, done by a network: `specs/Made.antt` has the events that each makes, and `run_command` does them.
#![tactic(auto)]

mod commands;
mod left_captures;

pub use commands::run_command;
pub use left_captures::LeftCaptures;
