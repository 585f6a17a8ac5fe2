//! The text of a scenario: a TOML document that plans a network and lists what happens in it.
//!
//! `specs/Document.antt` says which scenario a document is; `read_scenario` reads it.
#![tactic(auto)]

mod arrays;
mod circuit_row;
mod circuits;
mod document;
mod document_version;
mod end_rows;
mod group_row;
mod group_rows;
mod group_use;
mod groups;
mod item_kind;
mod keys;
mod limits;
mod members;
mod named;
mod names;
mod offer_keys;
mod offer_row;
mod offers;
mod plan;
mod port_rows;
mod row;
mod rows;
mod scenario;
mod service_rows;
mod table_row;
mod values;
mod wire_row;
mod wires;
mod word_command;
mod word_fault;

pub use command_text::{Command, ScenarioFault};
pub use document::read_scenario;
pub use scenario::Scenario;
pub use word_command::{read_command, read_command_with};
pub use word_fault::WordFault;
