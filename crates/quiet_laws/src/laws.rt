//! Deliveries alone come to an end.
ghost use Rattle.quiet_laws.specs.Laws.{DeliveriesLower, RunsRestByMeasure, RunsSettleByMeasure};
ghost use Rattle.rest_laws.specs.Rest.{RunsComeToRest};

/// Each delivery that is not idle takes away of a number that the plan, the states of sessions and what is on its way give: whatever was
/// lost, restarted and set before, and however many octets are delivered at once (RFC 5036 section 2.5).
#[tactic(auto, using(crate::proofs::RunLemmas::deliveries_lower))]
pub fn deliveries_lower()
    ensures { DeliveriesLower }
{}

/// So no more deliveries can follow each other than this number, where nothing else is done.
#[tactic(auto, using(crate::proofs::RunLemmas::runs_rest_by_measure))]
pub fn runs_rest_by_measure()
    ensures { RunsRestByMeasure }
{}

/// Signalling comes to rest: from each moment of each run deliveries alone are finitely many.
#[tactic(auto, using(crate::proofs::RunLemmas::runs_come_to_rest))]
pub fn runs_come_to_rest()
    ensures { RunsComeToRest }
{}

/// So `settle` with this number leaves nothing on its way, and each service, of which no end is idle for want of a label, is calm then
/// exactly where it was sound before: each two core edges joined by a mesh wire, and each spoke edge by a spoke, that is on at each edge
/// of its path, of which each two neighbours are connected, and both ends of which are clear and agree (RFC 4762 sections 4.4 and 10).
pub fn runs_settle_by_measure()
    ensures { RunsSettleByMeasure }
{}
