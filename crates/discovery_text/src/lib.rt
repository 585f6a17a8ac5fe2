//! The report of a script of targeted discovery as text: the lines of the network's report, and a line for each note in its place
//! between them.
//!
//! `specs/Text.antt` has the lines.
#![tactic(auto)]

mod note;
mod noted_trace;
mod text;

pub use noted_trace::NotedTrace;
pub use text::put_discovery;
