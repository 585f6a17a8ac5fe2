//! What becomes of a network by failures: what each event takes, whatever the state in which it comes, and whom a flooded frame would reach
//! then. This crate runs nothing: its definitions stand in `specs/`, and each function below has an empty body and a law as its contract.
#![tactic(auto)]

mod fault;
mod laws;

pub use fault::Fault;
pub use laws::{
    changes_are_told, circuit_alone, faults_are_exact, floods_as_surveyed, rests_as_surveyed,
    same_faults,
};
