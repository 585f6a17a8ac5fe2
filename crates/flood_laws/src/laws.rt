//! What holds of flooded frames, and of the wires that carry them, in every run of the network.
ghost use Rattle.flood_laws.specs.Laws.{
  ReachesAllWhereCalm,
  ReachesBack,
  RunsKeepWiresWhole,
  RunsReachWhatWiresCarry,
  RunsServeOnce,
  RunsShareReached,
  RunsShareSites,
  RunsTellInChains,
};

/// A flooded frame that enters a calm service, and of which no copy is lost or repeated, leaves at each other site of the service
/// exactly once, within twelve segments, however its copies and other frames cross: over the full mesh of the core edges and the
/// spokes that hang on them (RFC 4762 sections 4.4 and 10), each stitched together at up to three switching points (RFC 6073
/// section 4).
pub fn runs_serve_once()
    ensures { RunsServeOnce }
{}

/// At each moment of such a window each other site of the service either was served, exactly once, and is ahead of no copy under
/// way, or was not served yet and is ahead of exactly one; the sender is neither. Between switching points a copy counts as one that
/// arrives at the terminal edge to which it travels. Each copy has passed at most four segments for each wire of its way before the
/// one that it is on, and on that one a segment more than switching points (RFC 6073 section 4).
pub fn runs_share_sites()
    ensures { RunsShareSites }
{}

/// Where a service is quiet, whatever an edge advertises along a wire of it has come from the terminal edge behind it, edge by edge:
/// a terminal edge tells of itself, and a switching point what its other neighbour advertises to it, the status too, behind its own
/// point. Where a neighbour advertises to a switching point at which the wire is on and the session with the next edge is up, the
/// switching point tells it on, or is idle there, since it has no label left (RFC 6073 sections 4 and 7).
#[tactic(auto, using(crate::proofs::ChainLemmas::runs_tell_in_chains))]
pub fn runs_tell_in_chains()
    ensures { RunsTellInChains }
{}

/// Where a service is calm, a wire of it that forwards at the first edge of its path carries frames: it forwards at the last edge
/// too, and each switching point between them advertises on both sides and is bound on both (RFC 4762 section 10, RFC 6073 section
/// 4).
#[tactic(auto, using(crate::proofs::WholeLemmas::runs_keep_wires_whole))]
pub fn runs_keep_wires_whole()
    ensures { RunsKeepWiresWhole }
{}

/// A flooded frame that enters a service that is quiet, be it calm or not, and of which no copy is lost or repeated, leaves exactly
/// once at each circuit that is on at an edge that the sender's edge reaches, and at no other one, within twelve segments, however its
/// copies and other frames cross. An edge reaches itself and each other edge whose core edge is its own, or is joined to its own by a
/// mesh wire that carries frames; the core edge of a spoke edge is that of its spoke that carries frames, of which there is one at
/// most (RFC 4762 sections 4.4 and 10).
pub fn runs_reach_what_wires_carry()
    ensures { RunsReachWhatWiresCarry }
{}

/// At each moment of such a window each site that the frame reaches either was served, exactly once, and no copy under way has still to
/// serve it, or was not served yet and exactly one copy has to; each other site, the sender among them, was not served and has nothing
/// to come. Between switching points a copy counts as one that arrives at the terminal edge to which it travels (RFC 6073 section 4).
pub fn runs_share_reached()
    ensures { RunsShareReached }
{}

/// Where a service is calm, what a flooded frame reaches is each of its circuits that is on, but the sender.
#[tactic(auto, using(crate::proofs::CalmReachLemmas::reaches_all_where_calm))]
pub fn reaches_all_where_calm()
    ensures { ReachesAllWhereCalm }
{}

/// Of two circuits of a service that are on, either a flooded frame of each reaches the other one, or none of either does.
#[tactic(auto, using(crate::proofs::MutualLemmas::reaches_back))]
pub fn reaches_back()
    ensures { ReachesBack }
{}
