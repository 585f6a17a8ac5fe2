//! The script of targeted discovery: its lines, which name places of a plan, and the notes that are told of adjacencies.
//!
//! `specs/Lines.antt` says which lines a text is; `read_script` reads them.
#![tactic(auto)]

mod lines;
mod note;
mod placed_note;
mod script;
mod script_line;

pub use note::Note;
pub use placed_note::PlacedNote;
pub use script::read_script;
pub use script_line::ScriptLine;
pub use script_text::ScriptFault;
