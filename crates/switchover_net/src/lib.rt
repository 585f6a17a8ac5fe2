//! The network of edges in independent mode as it runs: the edges, the octets on their way between them, and what each line of a script
//! makes of them.
//!
//! `switchover_model` says what each line does, what is told of it, and what holds after every script.
#![tactic(auto)]

mod at_line;
mod edge_row;
mod script;
mod switch_net;
mod taking_link;
mod waiting;

pub use script::play;
pub use switch_net::SwitchNet;
