//! What holds of every run of the network.
ghost use Rattle.network_model.specs.Laws.{RunsAreSplit, RunsServeKnownOnce};

/// Split horizon: whatever is sent on a mesh wire came by no other mesh wire (RFC 4762 section 4.4).
#[tactic(auto, using(crate::proofs::SplitLemmas::run_split))]
pub fn runs_are_split()
    ensures { RunsAreSplit }
{}

/// A frame to a station whose port the bridge knows, once it has heard the frame, goes out by one port at most: what the step of
/// its entry, or of the arrival of a packet that carries it, tells of it is at most one copy (RFC 4762 section 4.1).
pub fn runs_serve_known_once()
    ensures { RunsServeKnownOnce }
{}
