//! The text of commands: each entry of a scenario's `events` is one command in words, which names rows of a plan.
//!
//! `specs/Events.antt` says which commands the entries are; `read_commands` reads them. What the reading of the whole document
//! shares with them is here too: the fault of a scenario, the places of faults, and the names of a plan.
#![tactic(auto)]

mod command;
mod command_words;
mod commands;
mod event_place;
mod events;
mod key;
mod row_place;
mod said;
mod same;
mod scenario_fault;

pub use command::Command;
pub use commands::{read_commands, read_one};
pub use key::mask;
pub use row_place::RowPlace;
pub use same::is_same;
pub use scenario_fault::ScenarioFault;
