//! Signalling comes to rest: deliveries alone are finitely many. This crate runs nothing: its definitions stand in `specs/`, and each
//! function below has an empty body and a law as its contract.
#![tactic(auto)]

mod laws;

pub use laws::{deliveries_lower, runs_come_to_rest, runs_rest_by_measure, runs_settle_by_measure};
