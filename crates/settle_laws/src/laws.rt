//! What signalling that has come to rest has decided, in every run of a checked plan.
ghost use Rattle.settle_laws.specs.Laws.{DeliveriesKeepChoice, DeliveriesKeepSound, RunsCarrySound, RunsChooseSound, RunsComeToCalm, RunsRestCalm, RunsRestQuiet, RunsSettleCalm};

/// A service that is quiet, and of which no end is idle for want of a label, is calm exactly where it is sound: each two core edges have a
/// mesh wire, and each spoke edge a spoke, that is on at each edge of its path, of which each two neighbours are connected, whose two ends
/// have no failure bits, and whose two offers agree (RFC 4762 sections 4.4 and 10, RFC 8077 section 6).
#[tactic(auto, using(crate::proofs::RunLemmas::runs_settle_calm))]
pub fn runs_settle_calm()
    ensures { RunsSettleCalm }
{}

/// There each spoke edge has chosen, of its sound spokes, the first with the least priority number, and none where none is sound (RFC 6870).
#[tactic(auto, using(crate::proofs::RunLemmas::runs_choose_sound))]
pub fn runs_choose_sound()
    ensures { RunsChooseSound }
{}

/// There a mesh wire carries frames exactly where it is sound, and a spoke exactly where it is the one that its spoke edge chooses among
/// its sound ones.
#[tactic(auto, using(crate::proofs::RunLemmas::runs_carry_sound))]
pub fn runs_carry_sound()
    ensures { RunsCarrySound }
{}

/// Where there is no next delivery every service is quiet: what an edge holds is always less than a whole PDU, and what is on its way
/// always whole ones.
#[tactic(auto, using(crate::proofs::RunLemmas::runs_rest_quiet))]
pub fn runs_rest_quiet()
    ensures { RunsRestQuiet }
{}

/// So there each service is calm exactly where it is sound, if no end of it is idle for want of a label.
#[tactic(auto, using(crate::proofs::RunLemmas::runs_rest_calm))]
pub fn runs_rest_calm()
    ensures { RunsRestCalm }
{}

/// Deliveries change nothing of what is sound: neither the settings of an edge, nor which connections stand at both ends. So a service is
/// sound after them exactly where it was before.
#[tactic(auto, using(crate::proofs::RunLemmas::deliveries_keep_sound))]
pub fn deliveries_keep_sound()
    ensures { DeliveriesKeepSound }
{}

/// Nor of which one is the best of the sound spokes of each spoke edge.
#[tactic(auto, using(crate::proofs::RunLemmas::deliveries_keep_choice))]
pub fn deliveries_keep_choice()
    ensures { DeliveriesKeepChoice }
{}

/// So it is known before the deliveries what they come to: once there is no next one, a service is calm exactly where it was sound before
/// them, if no end of it is idle for want of a label.
#[tactic(auto, using(crate::proofs::RunLemmas::runs_come_to_calm))]
pub fn runs_come_to_calm()
    ensures { RunsComeToCalm }
{}
