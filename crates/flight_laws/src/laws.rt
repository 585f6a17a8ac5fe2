//! What holds of sessions and pseudowires in every run of the network.
ghost use Rattle.flight_laws.specs.Across.{RunsTakeMappings, RunsTellAcross};
ghost use Rattle.flight_laws.specs.Laws.{DeliveriesEndNone, RunsAgreeAfterFlight, RunsComeUp, RunsEndWell, RunsFollowTable, RunsKeepLabelRule, RunsKeepToldRule, RunsSettle};
ghost use Rattle.flight_laws.specs.Releases.{RunsAwaitReleases, RunsDeclineNone, RunsReleaseUnadvertised};

/// Of two ends that stand one is active, and their session states with what is on its way between them are a row of the table:
/// the octets that each is still to hear of the other one are those of whole messages (RFC 5036 sections 2.5.3 and 2.5.4).
#[tactic(auto, using(crate::proofs::RunLemmas::runs_follow_table))]
pub fn runs_follow_table()
    ensures { RunsFollowTable }
{}

/// A session ends because its end heard nothing for the hold time, because its peer left so, or because the connection was
/// lost: no end refuses what another one says.
#[tactic(auto, using(crate::proofs::RunLemmas::runs_end_well))]
pub fn runs_end_well()
    ensures { RunsEndWell }
{}

/// Two ends between which nothing is held or on its way are both up.
#[tactic(auto, using(crate::proofs::RunLemmas::runs_come_up))]
pub fn runs_come_up()
    ensures { RunsComeUp }
{}

/// Two ends of a connection that stand do so after each delivery: no session between them ends until one of its ends hears
/// nothing for the hold time, restarts, or loses its connection.
#[tactic(auto, using(crate::proofs::StayLemmas::deliveries_end_none))]
pub fn deliveries_end_none()
    ensures { DeliveriesEndNone }
{}

/// Where both ends of a connection stand, an edge that has heard the messages on their way to it holds of each wire between the
/// two exactly what the other edge advertises now: its label and content, or nothing (RFC 8077 section 6, RFC 5036 sections
/// 3.5.7 and 3.5.10).
#[tactic(auto, using(crate::proofs::BoundRunLemmas::runs_agree_after_flight))]
pub fn runs_agree_after_flight()
    ensures { RunsAgreeAfterFlight }
{}

/// In a state in which a service is quiet, of each two edges that it joins either both sessions are up, each end of each wire
/// between them holds what the other one advertises, and none waits for a release; or they have no connection, and no end of
/// their wires tells or holds anything.
#[tactic(auto, using(crate::proofs::BoundRunLemmas::runs_settle))]
pub fn runs_settle()
    ensures { RunsSettle }
{}

/// Wherever a label of an edge is named, at one of its own ends, in a message on its way from it or towards it, or in a binding
/// of a neighbour, it was given before, and whoever owns it is the end that it is named with; where its number waits, it waits for
/// the neighbour that it is named with, and it neither rests nor is free (RFC 3032 section 2.1, RFC 5036 sections 3.5.7, 3.5.10 and
/// 3.5.11).
#[tactic(auto, using(crate::proofs::RuledRunLemmas::runs_keep_label_rule))]
pub fn runs_keep_label_rule()
    ensures { RunsKeepLabelRule }
{}

/// Wherever a content of a pseudowire is told, at the end that advertises it, on its way, or in a binding of the neighbour, it is
/// the one that the plan has the edge tell the neighbour, but for its status, and it has a status exactly where the offer has one
/// (RFC 8077 section 6).
#[tactic(auto, using(crate::proofs::RuledRunLemmas::runs_keep_told_rule))]
pub fn runs_keep_told_rule()
    ensures { RunsKeepToldRule }
{}

/// Where both ends of a connection stand, of each label that an end withdraws the Label Withdraw is on its way to the peer, or
/// the Label Release on its way back: no end waits in vain (RFC 5036 sections 3.5.10 and 3.5.11).
#[tactic(auto, using(crate::proofs::ReleaseLemmas::runs_await_releases))]
pub fn runs_await_releases()
    ensures { RunsAwaitReleases }
{}

/// Where both ends of a connection stand, each Label Release on its way names a label, and no end of its receiver advertises
/// that label, whatever the wire and the peer: no label is taken from an end that has just advertised it (RFC 5036 section
/// 3.5.11).
#[tactic(auto, using(crate::proofs::ReleaseLemmas::runs_release_unadvertised))]
pub fn runs_release_unadvertised()
    ensures { RunsReleaseUnadvertised }
{}

/// Where both ends of a connection stand, no end of a wire between the two was declined: no edge releases a label that was not
/// withdrawn (RFC 5036 section 3.5.11).
#[tactic(auto, using(crate::proofs::ReleaseLemmas::runs_decline_none))]
pub fn runs_decline_none()
    ensures { RunsDeclineNone }
{}

/// After every event a switching point of a wire that advertises to one neighbour tells it exactly what it holds of the other
/// one, its status among it, behind its own point; its wire is on, and the session with whom it tells is up. Where it holds
/// something and could tell it, but is idle and was not declined, it has no label left (RFC 6073 sections 7 and 10).
#[tactic(auto, using(crate::proofs::AcrossLemmas::runs_tell_across))]
pub fn runs_tell_across()
    ensures { RunsTellAcross }
{}

/// Whatever Label Mapping is on its way to an edge, the end that it names takes what it tells: no switching point refuses one
/// for its points (RFC 6073 section 7.6).
#[tactic(auto, using(crate::proofs::AcrossLemmas::runs_take_mappings))]
pub fn runs_take_mappings()
    ensures { RunsTakeMappings }
{}
