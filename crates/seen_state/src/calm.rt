//! Which services are seen calm.
ghost use Rattle.std.specs.Prelude.{◌≡◌, []};
ghost use Rattle.net_base.specs.plan.Accepted.{IsWithinLimits};
ghost use Rattle.seen_network.specs.{Calm.{is_seen_calm, is_seen_drained}, Seen.{Seen}};
ghost use Rattle.seen_state.specs.SeenEdges.{ShowsEdges, shown_with};

use crate::seen_edges::SeenEdges;
use calm_services::{PlannedNetwork, is_calm};
use net_base::{EdgeId, Plan, ServiceId, WireId, WirePlan, first_of, last_of};
use std::marker::Model;

impl SeenEdges {
    /// Whether a service is seen calm: each two edges that it joins have both ends of their connection or neither and nothing between
    /// them, each two core edges have a mesh wire that is up at both terminal edges, and each spoke edge has exactly one such spoke
    /// (RFC 4762 sections 4.4 and 10.2). It takes no memory.
    pub fn is_calm(&self, plan: &Plan, service: ServiceId) -> bool
        requires { IsWithinLimits plan.now }
        ensures { (seen : Seen) → ShowsEdges self.now seen → result ≡ is_seen_calm plan.now seen service }
    {
        let network = SeenNetwork {
            seen_edges: self,
            plan,
        };
        is_calm(&network, service)
    }

    // An edge's end of its connection with a peer stands.
    #[tactic(auto, unfolding(crate::specs::SeenEdges::shown_with))]
    fn stands(&self, edge: EdgeId, peer: EdgeId) -> bool
        ensures { result ≡ (shown_with self.now []).stands edge.0 peer.0 }
    {
        match self.end_of(edge, peer) {
            Some(end) => end.stands(),
            None => false,
        }
    }

    // Nothing is on its way from an edge to another one, and the other one holds no rest.
    #[tactic(auto, unfolding(crate::specs::SeenEdges::shown_with))]
    fn is_drained(&self, from: EdgeId, to: EdgeId) -> bool
        ensures { result ≡ is_seen_drained (shown_with self.now []) from.0 to.0 }
    {
        match self.end_of(to, from) {
            Some(end) => end.is_drained(),
            None => true,
        }
    }
}

// What is seen of a plan's network.
#[derive(Drop)]
struct SeenNetwork<'s, 'p> {
    seen_edges: &'s SeenEdges,
    plan: &'p Plan,
}

impl<'s, 'p> Model for SeenNetwork<'s, 'p> {
    ghost use Rattle.net_base.specs.plan.Accepted.{IsWithinLimits};
    ghost use Rattle.seen_state.specs.Calm.{SeenOfPlan};

    ghost Value = { SeenOfPlan };

    ghost view = { λ n. record { seen_edges = n.seen_edges.now; plan = n.plan.now } };

    ghost invariant = { λ n. IsWithinLimits n.plan.now };
}

impl PlannedNetwork for SeenNetwork<'_, '_> {
    ghost use Rattle.std.specs.Prelude.{[]};
    ghost use Rattle.seen_network.specs.Calm.{is_seen_settled, is_seen_up};
    ghost use Rattle.seen_state.specs.SeenEdges.{shown_with};

    ghost plan = { λ network. network.plan };

    ghost settled = { λ network. is_seen_settled (shown_with network.seen_edges []) };

    ghost carries = { λ network. is_seen_up (shown_with network.seen_edges []) };

    fn plan(&self) -> &Plan {
        self.plan
    }

    // Neither end of the connection stands, or both stand and nothing is on its way or held.
    fn is_settled(&self, a: EdgeId, b: EdgeId) -> bool {
        let seen_edges = self.seen_edges;
        let (one, other) = (seen_edges.stands(a, b), seen_edges.stands(b, a));
        (!one && !other)
            || ((one && other) && (seen_edges.is_drained(a, b) && seen_edges.is_drained(b, a)))
    }

    // The wire is up at both terminal edges.
    #[tactic(auto, using(crate::proofs::CalmLemmas::up_steps), unfolding(crate::specs::SeenEdges::shown_with))]
    fn carries(&self, wire: WireId, row: &WirePlan) -> bool {
        let path = row.path.as_slice();
        self.seen_edges.is_up_at(first_of(path), wire.0 as usize)
            && self.seen_edges.is_up_at(last_of(path), wire.0 as usize)
    }
}
