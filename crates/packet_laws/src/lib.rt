//! Frames over the whole network: the rule of packets under way, and that customers stay apart. This crate runs nothing: its
//! definitions stand in `specs/`, and each function below has an empty body and a law as its contract.
#![tactic(auto)]

mod laws;

pub use laws::{
    runs_are_isolated, runs_keep_echoes_apart, runs_keep_packet_rule, runs_share_channels,
};
