//! What holds of learned addresses in every run of the network.
ghost use Rattle.address_laws.specs.Laws.{RunsKeepPoints, RunsReachKnown};

/// From a calm state in which each learned address points to the site of its station and no packet of the service is under way,
/// frames and packets keep it so, where each station enters the service at one site only: whatever arrives, is lost or repeated.
/// With it each copy under way comes from behind the port by which it will arrive at the terminal edge to which it travels, where
/// that port forwards (RFC 4762 sections 4.2 and 10, RFC 6073 section 4).
pub fn runs_keep_points()
    ensures { RunsKeepPoints }
{}

/// In such a stretch a well-formed frame to a station whose site is on, and is not the frame's own circuit, leaves at that site
/// exactly once and at no other circuit more than once, within twelve segments, where no copy of it is lost or repeated: whether an
/// edge has learned the station or floods the frame.
pub fn runs_reach_known()
    ensures { RunsReachKnown }
{}
