//! What two edges say to each other over a connection: the session states of its two ends together with the messages on their
//! way between them, how sessions end, what the ends of pseudowires come to know, and which labels and contents are named. This
//! crate runs nothing: its definitions stand in `specs/`, and each function below has an empty body and a law as its contract.
#![tactic(auto)]

mod laws;

pub use laws::{
    deliveries_end_none, runs_agree_after_flight, runs_await_releases, runs_come_up,
    runs_decline_none, runs_end_well, runs_follow_table, runs_keep_label_rule, runs_keep_told_rule,
    runs_release_unadvertised, runs_settle, runs_take_mappings, runs_tell_across,
};
