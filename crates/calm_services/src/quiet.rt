//! Which services are quiet.
ghost use Rattle.std.specs.Prelude.{◌≡◌, ◌<◌, ◌||◌, not, length};
ghost use Rattle.net_base.specs.plan.Roles.{all_below};
ghost use Rattle.calm_services.specs.{Calm.{is_quiet_where}, EdgePairs.{has_pair}};

use crate::PlannedNetwork;
use crate::edge_pairs::EdgePairs;
use crate::service_edges::joined;
use net_base::{EdgeId, ServiceId};

/// Whether each two edges that a segment of some wire of the service joins are settled. It takes no memory.
#[tactic(auto, using(crate::proofs::CalmLemmas::below_more))]
pub fn is_quiet<N: PlannedNetwork>(network: &N, service: ServiceId) -> bool
    ensures { result ≡ is_quiet_where (N.plan network.now) (N.settled network.now) service }
{
    let pairs = joined(network.plan(), service);
    let count = network.plan().edges.len();
    for a in 0..count {
        if !are_settled_beside(network, &pairs, a) {
            return false;
        }
    }
    true
}

// Each edge that is a pair with this one is settled with it.
#[tactic(auto, using(crate::proofs::CalmLemmas::below_more))]
fn are_settled_beside<N: PlannedNetwork>(network: &N, pairs: &EdgePairs, a: usize) -> bool
    requires { a < length (N.plan network.now).edges }
    ensures { result ≡ all_below (length (N.plan network.now).edges) (λ b. not (has_pair pairs.now a b) || N.settled network.now a b) }
{
    let count = network.plan().edges.len();
    for b in 0..count {
        if pairs.contains(a as u16, b as u16)
            && !network.is_settled(EdgeId(a as u16), EdgeId(b as u16))
        {
            return false;
        }
    }
    true
}
