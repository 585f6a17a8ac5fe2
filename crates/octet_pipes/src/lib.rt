//! The octets on their way between the edges of a plan: a pipe from each edge to each other one.
#![tactic(auto)]

mod pipe;
mod pipe_row;
mod pipes;

pub use pipes::Pipes;
