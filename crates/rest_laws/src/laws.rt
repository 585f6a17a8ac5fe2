//! What an edge puts on hearing a message, and what it weighs.
ghost use Rattle.rest_laws.specs.Delivered.{RunsLighten, RunsRise};
ghost use Rattle.rest_laws.specs.Layers.{DeliveriesLeaveNoneAlone};
ghost use Rattle.rest_laws.specs.Rest.{SettlesWithin};
ghost use Rattle.rest_laws.specs.Rises.{HearingLightens, HearingRises};
ghost use Rattle.rest_laws.specs.Weight.{FewWeighLess};

/// An edge that has mended hears a message about a wire between it and a peer, which keeps to the plan, and mends: whatever it puts
/// is of a higher level than the message, and no more than so many messages: those that answer it, and three for each of its ends
/// (RFC 5036 sections 3.5.7, 3.5.10 and 3.5.11, RFC 8077 section 6.3, RFC 4762 section 6.2).
#[tactic(auto, using(crate::proofs::RiseLemmas::hearing_rises))]
pub fn hearing_rises()
    ensures { HearingRises }
{}

/// By levels messages can be given weights, so that one weighs more than those of higher levels that it makes be put, where these are
/// no more than so few.
#[tactic(auto, using(crate::proofs::WeightLemmas::lighter))]
pub fn few_weigh_less()
    ensures { FewWeighLess }
{}

/// So what it puts weighs less than the message that it heard.
pub fn hearing_lightens()
    ensures { HearingLightens }
{}

/// So it is in every run: where an edge hears a neighbour, both ends of their connection stand and its session is up, whatever it puts
/// is of a higher level than some message that was on its way to it.
#[tactic(auto, using(crate::proofs::DeliverLemmas::runs_rise))]
pub fn runs_rise()
    ensures { RunsRise }
{}

/// And there it grows lighter: what the edge puts meanwhile, what is left to be heard, and one for each message that it has heard, weigh
/// no more together than what was on its way to it before.
#[tactic(auto, using(crate::proofs::DeliverLemmas::runs_lighten))]
pub fn runs_lighten()
    ensures { RunsLighten }
{}

/// Deliveries leave no end of a connection alone, its neighbour's gone, that was not so before.
#[tactic(auto, using(crate::proofs::LayerLemmas::deliveries_leave_none_alone))]
pub fn deliveries_leave_none_alone()
    ensures { DeliveriesLeaveNoneAlone }
{}

/// Where no more than so many deliveries can follow each other, as many next deliveries leave no further one: `settle` with that number
/// leaves nothing on its way.
pub fn settles_within()
    ensures { SettlesWithin }
{}
