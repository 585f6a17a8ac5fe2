//! A move to a spoke over a switching point, found by evaluation: the premises of the law of moves are met there. This crate runs nothing: its
//! definition stands in `specs/`, and the function below has an empty body and a law as its contract.
#![tactic(auto)]

mod laws;

pub use laws::moves_heal_over_a_switching_point;
