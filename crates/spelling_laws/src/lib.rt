//! What edges say to each other in a run, octet by octet. This crate runs nothing: its definitions stand in `specs/`, and each function
//! below has an empty body and a law as its contract.
#![tactic(auto)]

mod laws;

pub use laws::runs_spell_pdus;
