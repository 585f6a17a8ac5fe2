//! Signalling comes to rest: whatever message an edge hears, the messages that come of it are of ever higher levels. This crate runs
//! nothing: its definitions stand in `specs/`, and each function below has an empty body and a law as its contract.
#![tactic(auto)]

mod laws;

pub use laws::{
    deliveries_leave_none_alone, few_weigh_less, hearing_lightens, hearing_rises, runs_lighten,
    runs_rise, settles_within,
};
