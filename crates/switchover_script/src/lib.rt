//! The script of independent mode (RFC 6870 section 4): its lines, which name edges of a plan and wires of two edges.
//!
//! `specs/Lines.antt` says which lines a text is; `read_script` reads them.
#![tactic(auto)]

mod lines;
mod script;

pub use lines::{apart, switch_shape};
pub use script::read_script;
pub use script_text::ScriptFault;
pub use switchover_model::SwitchLine;
