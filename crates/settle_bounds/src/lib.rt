//! How many deliveries signalling needs at most to come to rest: a number that a planner can use. This crate runs nothing: its definitions
//! stand in `specs/`, and each function below has an empty body and a law as its contract.
#![tactic(auto)]

mod laws;

pub use laws::{next_deliveries_lower, runs_have_bounds, runs_settle_by_bound};
