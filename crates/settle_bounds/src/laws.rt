//! Signalling comes to rest after so many deliveries at most.
ghost use Rattle.settle_bounds.specs.Laws.{NextDeliveriesLower, RunsHaveBounds, RunsSettleByBound};

/// Each delivery that `settle` makes takes away of a number that the plan, the sessions and the messages on their way give: each message is
/// worth all that may come of it, along its pseudowire (RFC 8077 section 6, RFC 6073 section 10), by another choice of a spoke edge
/// (RFC 6870), and through the service (RFC 4762 section 6.2).
#[tactic(auto, using(crate::proofs::SettleLemmas::next_deliveries_lower))]
pub fn next_deliveries_lower()
    ensures { NextDeliveriesLower }
{}

/// Each moment of each run has such a number.
#[tactic(auto, using(crate::proofs::SettleLemmas::runs_have_bounds))]
pub fn runs_have_bounds()
    ensures { RunsHaveBounds }
{}

/// So `settle` with this number leaves nothing on its way, and each service, of which no end is idle for want of a label, is calm then
/// exactly where it was sound before.
#[tactic(auto, using(crate::proofs::SettleLemmas::runs_settle_by_bound))]
pub fn runs_settle_by_bound()
    ensures { RunsSettleByBound }
{}
