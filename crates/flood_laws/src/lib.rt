//! Floods over the hierarchy: what a copy of a frame has still to serve, that each site of a calm service gets a flooded frame
//! exactly once, and what is told along the wires and which of them carry frames. This crate runs nothing: its definitions stand in
//! `specs/`, and each function below has an empty body and a law as its contract.
#![tactic(auto)]

mod laws;

pub use laws::{
    reaches_all_where_calm, reaches_back, runs_keep_wires_whole, runs_reach_what_wires_carry,
    runs_serve_once, runs_share_sites, runs_tell_in_chains,
};
