//! What the trace of every run of a checked plan shows.
ghost use Rattle.seen_laws.specs.Laws.{RunsAreSeenCalm, RunsAreSeenOnce, RunsShow};

/// What the entries of the trace show of the network is so: which connections stand, what is on its way between edges and what an
/// edge holds of it, which wires are up, which circuits are on, and which copies of which frames are under way.
#[tactic(auto, using(crate::proofs::RunLemmas::run_shows))]
pub fn runs_show()
    ensures { RunsShow }
{}

/// A service is seen calm in the entries of the trace exactly where it is calm.
#[tactic(auto, using(crate::proofs::CalmLemmas::run_calm))]
pub fn runs_are_seen_calm()
    ensures { RunsAreSeenCalm }
{}

/// A frame that is seen to enter a calm service and to be flooded, and of which no copy is seen to be lost or repeated, is seen to
/// leave exactly once at each other site of the service, within twelve segments (RFC 4762 sections 4.4 and 10).
pub fn runs_are_seen_once()
    ensures { RunsAreSeenOnce }
{}
