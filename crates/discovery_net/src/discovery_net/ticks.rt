//! Ticks: adjacencies end, and take what stands on them along.
ghost use Rattle.std.specs.Prelude.{◌≡◌, ◌<◌, ◌∷◌, ◌-◌, ℕ, false, length, List, OnOk};
ghost use Rattle.ldp_discovery.specs.{Live.{Deed, ticked}, Histories.{AreAfter, ends_by_tick, with_deed}};
ghost use Rattle.network_model.specs.State.{stands};
ghost use Rattle.psn_net.specs.Lists.{network_seen};
ghost use Rattle.command_run.specs.Going.{IsRunGoing};
ghost use Rattle.discovery_script.specs.Planned.{AreOfPlan};
ghost use Rattle.discovery_net.specs.{Deeds.{Discovery}, Lines.{acts_of, after_line, lapses_with}, Lists.{Acts, Downs, IsAt}};

use crate::discovery_net::DiscoveryNet;
use discovery_script::{Note, ScriptLine};
use net_base::{EdgeId, Event};
use psn_net::NetStop;
use std::alloc::Global;

impl DiscoveryNet {
    // A tick passes for the adjacencies of each edge, and then for the network.
    pub(crate) fn tick(&mut self, alloc: Global) -> Result<(), NetStop>
        requires going { self.old.network.failed ≡ false }
        ensures plan { self.new.network.plan ≡ self.old.network.plan }
        ensures going { IsRunGoing result self.new.network }
        ensures acts { (d : Discovery) → IsAt d self.old → Acts result self.old self.new (acts_of self.old.network.plan d ScriptLine.Tick) }
        ensures after { (d : Discovery) → IsAt d self.old → OnOk result (IsAt (after_line self.old.network.plan d ScriptLine.Tick) self.new) }
    {
        for place in 0..self.network.count() {
            self.age(alloc, EdgeId(place as u16))?;
        }
        self.apply(alloc, &Event::Tick)
    }

    // A tick passes for the adjacencies of an edge: what stands on those that end by it is lost.
    fn age(&mut self, alloc: Global, edge: EdgeId) -> Result<(), NetStop>
        requires edge { edge.0 < length self.old.network.plan.edges }
        requires going { self.old.network.failed ≡ false }
        ensures plan { self.new.network.plan ≡ self.old.network.plan }
        ensures going { IsRunGoing result self.new.network }
        ensures hellos { self.new.hellos ≡ self.old.hellos }
        ensures histories { (histories : ℕ → List Deed) → AreAfter histories self.old.adjacencies → OnOk result (AreAfter (with_deed edge ticked histories) self.new.adjacencies) }
        ensures downs { (histories : ℕ → List Deed) → AreAfter histories self.old.adjacencies → Downs result self.old self.new (lapses_with (ends_by_tick (histories edge.0)) edge 0 (length self.old.network.plan.edges)) }
    {
        let lapsed = self.adjacencies.tick(edge);
        for place in 0..self.network.count() {
            let peer = EdgeId(place as u16);
            if lapsed.contains(peer) {
                self.take_down(alloc, edge, peer)?;
            }
        }
        Ok(())
    }

    // An adjacency has ended: this is told, and the edge's end of the connection is lost, where it stands.
    #[tactic(auto, using(crate::proofs::LapseLemmas::told_down, crate::proofs::LapseLemmas::taken_down, crate::proofs::LapseLemmas::halted_down))]
    fn take_down(&mut self, alloc: Global, edge: EdgeId, peer: EdgeId) -> Result<(), NetStop>
        requires planned { AreOfPlan self.old.network.plan edge peer }
        requires going { self.old.network.failed ≡ false }
        ensures plan { self.new.network.plan ≡ self.old.network.plan }
        ensures going { IsRunGoing result self.new.network }
        ensures hellos { self.new.hellos ≡ self.old.hellos }
        ensures adjacencies { self.new.adjacencies ≡ self.old.adjacencies }
        ensures downs { Downs result self.old self.new (λ behind. record { edge = edge; peer = peer } ∷ behind) }
    {
        self.tell(Note::Down { edge, peer })?;
        if self.stands(edge, peer) {
            return self.apply(alloc, &Event::Lose { edge, peer });
        }
        Ok(())
    }

    // Whether an edge's end of its connection with a peer stands.
    fn stands(&self, edge: EdgeId, peer: EdgeId) -> bool
        requires { edge.0 < length self.now.network.plan.edges }
        ensures { result ≡ stands (network_seen self.now.network) edge.0 peer.0 }
    {
        match self.network.edge(edge) {
            Some(found) => found.has_end(peer),
            None => false,
        }
    }
}
