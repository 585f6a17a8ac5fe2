//! When a service whose signalling has come to rest is calm. This crate runs nothing: its definitions stand in `specs/`, and each
//! function below has an empty body and a law as its contract.
#![tactic(auto)]

mod laws;

pub use laws::{
    deliveries_keep_choice, deliveries_keep_sound, runs_carry_sound, runs_choose_sound,
    runs_come_to_calm, runs_rest_calm, runs_rest_quiet, runs_settle_calm,
};
