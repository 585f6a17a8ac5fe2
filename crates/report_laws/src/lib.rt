//! What is told of a run names places of its plan, so that it can be read again. This crate runs nothing: its definitions stand in
//! `specs/`, and each function below has an empty body and a law as its contract.
#![tactic(auto)]

ghost use Rattle.report_laws.specs.Laws.{MadeCountFromOne, RunsAreReported, RunsTellOfPlan};

/// Each entry of a run of a checked plan speaks of edges, circuits and wires of the plan.
pub fn runs_tell_of_plan()
    ensures { RunsTellOfPlan }
{}

/// The events that a scenario's commands make deliver an octet at least, and name packets by the numbers that are given: they count from
/// 1, as those do that the commands say themselves.
pub fn made_count_from_one()
    ensures { MadeCountFromOne }
{}

/// So the report of a run is read as its trace, where its numbers and octets are in the ranges of their types.
pub fn runs_are_reported()
    ensures { RunsAreReported }
{}
