//! The network as a record and a step on it, and the laws of its runs. This crate runs nothing: its definitions stand in
//! `specs/`, and each function below has an empty body and a law as its contract.
#![tactic(auto)]

mod laws;
mod packet;

pub use laws::{runs_are_split, runs_serve_known_once};
pub use packet::Packet;
