//! Which edges are connected.
ghost use Rattle.std.specs.Prelude.{◌≡◌, ◌<◌, ℕ, length};
ghost use Rattle.edge_model.specs.State.{has_end};
ghost use Rattle.network_model.specs.State.{stands};
ghost use Rattle.psn_net.specs.Lists.{network_seen};
ghost use Rattle.settle_laws.specs.Sound.{are_connected};
ghost use Rattle.survey_reach.specs.{Ground.{are_peers}, Words.{has_pair, in_word}};

use net_base::EdgeId;
use psn_net::Network;
use survey_reach::{EdgePairs, with_bit};

// Whether an edge's end of its connection with another one stands.
fn stands(network: &Network, a: usize, b: usize) -> bool
    requires a { a < length network.now.plan.edges }
    requires b { b < length network.now.plan.edges }
    ensures { result ≡ stands (network_seen network.now) a b }
{
    // Asked so that how many edges there are at most is at hand for the proof.
    let _count = network.count();
    match network.edge(EdgeId(a as u16)) {
        Some(edge) => edge.has_end(EdgeId(b as u16)),
        None => false,
    }
}

// Whether both ends of the connection between two edges stand.
fn are_connected(network: &Network, a: usize, b: usize) -> bool
    requires a { a < length network.now.plan.edges }
    requires b { b < length network.now.plan.edges }
    ensures { result ≡ are_connected (network_seen network.now) a b }
{
    stands(network, a, b) && stands(network, b, a)
}

// The edges with which an edge is connected.
#[tactic(auto, using(crate::proofs::PeerLemmas::bit_steps))]
fn peers_of(network: &Network, a: usize) -> u64
    requires { a < length network.now.plan.edges }
    ensures { (b : ℕ) → in_word result b ≡ are_peers network.now.plan (network_seen network.now) a b }
{
    let mut word = 0;
    for b in 0..network.count() {
        if are_connected(network, a, b) {
            word = with_bit(word, b);
        }
    }
    word
}

/// The pairs of edges of which both ends of the connection stand.
#[tactic(auto, using(crate::proofs::PeerLemmas::pair_steps))]
pub fn connected_in(network: &Network) -> EdgePairs
    ensures { (a b : ℕ) → has_pair result a b ≡ are_peers network.now.plan (network_seen network.now) a b }
{
    let mut pairs = EdgePairs::none();
    for a in 0..network.count() {
        let row = peers_of(network, a);
        pairs.set_row(a, row);
    }
    pairs
}
