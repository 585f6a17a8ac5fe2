//! Connections open over adjacencies.
ghost use Rattle.std.specs.Prelude.{◌≡◌, ◌∷◌, [], false, length, OnOk};
ghost use Rattle.net_base.specs.{plan.Paths.{are_joined}, plan.Planned.{IsEventOf}};
ghost use Rattle.network_model.specs.Step.{step};
ghost use Rattle.psn_net.specs.Lists.{network_seen};
ghost use Rattle.command_run.specs.Going.{IsRunGoing};
ghost use Rattle.discovery_script.specs.Planned.{AreOfPlan};
ghost use Rattle.discovery_net.specs.{Acts.{Does}, Deeds.{Discovery, adjacency_lives}, Lines.{acts_of, after_line, may_open}};
ghost use Rattle.discovery_net.specs.Lists.{Acts, IsAt};

use crate::discovery_net::DiscoveryNet;
use discovery_script::{Note, ScriptLine};
use net_base::{EdgeId, Event};
use psn_net::NetStop;
use std::alloc::Global;

impl DiscoveryNet {
    // A connection opens between two edges that a segment joins, where the adjacencies of both live.
    #[tactic(auto, using(crate::proofs::LineLemmas::open_idle_acts, crate::proofs::LineLemmas::open_idle_after, crate::proofs::LineLemmas::open_done_acts, crate::proofs::LineLemmas::open_done_after, crate::proofs::LineLemmas::open_barred_acts, crate::proofs::LineLemmas::open_barred_after))]
    pub(crate) fn open_connection(
        &mut self,
        alloc: Global,
        from: EdgeId,
        to: EdgeId,
    ) -> Result<(), NetStop>
        requires planned { AreOfPlan self.old.network.plan from to }
        requires going { self.old.network.failed ≡ false }
        ensures plan { self.new.network.plan ≡ self.old.network.plan }
        ensures going { IsRunGoing result self.new.network }
        ensures acts { (d : Discovery) → IsAt d self.old → Acts result self.old self.new (acts_of self.old.network.plan d (ScriptLine.Open from to)) }
        ensures after { (d : Discovery) → IsAt d self.old → OnOk result (IsAt (after_line self.old.network.plan d (ScriptLine.Open from to)) self.new) }
    {
        if !self.are_joined(from, to) {
            return self.tell(Note::Idle);
        }
        if self.may_open(from, to) {
            return self.apply(alloc, &Event::Connect { from, to });
        }
        self.tell(Note::Barred { from, to })
    }

    // Whether the adjacencies of both edges live.
    #[tactic(auto, using(crate::proofs::LineLemmas::may_open_is))]
    fn may_open(&self, from: EdgeId, to: EdgeId) -> bool
        requires planned { AreOfPlan self.now.network.plan from to }
        ensures { (d : Discovery) → IsAt d self.now → result ≡ may_open d from to }
    {
        self.lives(from, to) && self.lives(to, from)
    }

    // Whether an edge's adjacency with another one lives.
    pub(crate) fn lives(&self, edge: EdgeId, peer: EdgeId) -> bool
        requires planned { AreOfPlan self.now.network.plan edge peer }
        ensures { (d : Discovery) → IsAt d self.now → result ≡ adjacency_lives d edge.0 peer.0 }
    {
        self.adjacencies.lives(edge, peer)
    }

    // Whether a segment of some wire joins two edges.
    pub(crate) fn are_joined(&self, from: EdgeId, to: EdgeId) -> bool
        requires planned { AreOfPlan self.now.network.plan from to }
        ensures { result ≡ are_joined self.now.network.plan from.0 to.0 }
    {
        self.adjacencies.is_joined(from, to)
    }

    // Does one event of the network.
    #[tactic(auto, using(crate::proofs::LineLemmas::kept_discovery, crate::proofs::CourseLemmas::does_one, crate::proofs::CourseLemmas::does_none, command_run::proofs::GoingLemmas::applied_going))]
    pub(crate) fn apply(&mut self, alloc: Global, event: &Event) -> Result<(), NetStop>
        requires event { IsEventOf self.old.network.plan event.now }
        requires going { self.old.network.failed ≡ false }
        ensures plan { self.new.network.plan ≡ self.old.network.plan }
        ensures going { IsRunGoing result self.new.network }
        ensures adjacencies { self.new.adjacencies ≡ self.old.adjacencies }
        ensures count { length self.new.adjacencies ≡ length self.old.network.plan.edges }
        ensures hellos { self.new.hellos ≡ self.old.hellos }
        ensures state { OnOk result (network_seen self.new.network ≡ (step self.old.network.plan (network_seen self.old.network) event.now).state) }
        ensures acts { Acts result self.old self.new (Does event.now ∷ []) }
    {
        self.network.apply(alloc, event)
    }
}
