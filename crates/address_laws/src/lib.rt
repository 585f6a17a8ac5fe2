//! Learned addresses over the hierarchy: that they point to where their stations are, and that a frame to a known station reaches
//! its site. This crate runs nothing: its definitions stand in `specs/`, and each function below has an empty body and a law as
//! its contract.
#![tactic(auto)]

mod laws;

pub use laws::{runs_keep_points, runs_reach_known};
