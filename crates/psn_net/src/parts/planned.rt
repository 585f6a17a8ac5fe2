//! A network as calm services are found in it.
ghost use Rattle.std.specs.Prelude.{◌≡◌, ◌<◌, length};
ghost use Rattle.network_model.specs.Calm.{is_drained};
ghost use Rattle.psn_net.specs.Lists.{network_seen};

use crate::parts::Parts;
use calm_services::PlannedNetwork;
use net_base::{EdgeId, Plan, WireId, WirePlan};

impl PlannedNetwork for Parts {
    ghost use Rattle.network_model.specs.Calm.{carries, is_settled};
    ghost use Rattle.psn_net.specs.Lists.{network_seen};

    ghost plan = { λ parts. parts.plan };

    ghost settled = { λ parts. is_settled (network_seen parts) };

    ghost carries = { λ parts. carries parts.plan (network_seen parts) };

    fn plan(&self) -> &Plan {
        &self.plan
    }

    // Neither end of the connection stands, or both stand and nothing is on its way.
    fn is_settled(&self, a: EdgeId, b: EdgeId) -> bool {
        let (one, other) = (self.stands(a, b), self.stands(b, a));
        (!one && !other) || ((one && other) && (self.has_drained(a, b) && self.has_drained(b, a)))
    }

    fn carries(&self, wire: WireId, row: &WirePlan) -> bool {
        // Asked so that what always holds of it is at hand for the proof.
        let _plan = &self.plan;
        self.carries(wire, row)
    }
}

impl Parts {
    // Nothing is on its way from an edge to another one, and the other one holds no rest.
    #[tactic(auto, using(crate::proofs::CalmLemmas::held_is), unfolding(crate::specs::Lists::network_seen))]
    fn has_drained(&self, from: EdgeId, to: EdgeId) -> bool
        requires from { from.0 < length self.now.plan.edges }
        requires to { to.0 < length self.now.plan.edges }
        ensures { result ≡ is_drained (network_seen self.now) from.0 to.0 }
    {
        self.is_drained(from, to) && self.edges[to.0 as usize].held(from) == 0
    }
}
