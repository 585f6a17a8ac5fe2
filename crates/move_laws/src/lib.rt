//! A spoke edge that moves to another one of its spokes: what was learned points the right way again. This crate runs nothing: its
//! definitions stand in `specs/`, and the function below has an empty body and a law as its contract.
#![tactic(auto)]

mod laws;

pub use laws::runs_heal_moves;
