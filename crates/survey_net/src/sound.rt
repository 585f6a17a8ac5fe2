//! Which wires are sound.
ghost use Rattle.std.specs.Prelude.{◌≡◌, ◌<◌, not, ℕ, true, length, IfSome};
ghost use Rattle.std.specs.List.{list_all};
ghost use Rattle.net_base.specs.plan.RowFaults.{is_edge_of};
ghost use Rattle.pw_signalling.specs.Down.{differ, mtus_differ};
ghost use Rattle.psn_net.specs.Lists.{network_seen};
ghost use Rattle.settle_laws.specs.Sound.{do_agree, is_on_along, is_sound};
ghost use Rattle.survey_reach.specs.{Ground.{are_peers, sound_at}, Words.{has_pair}};
ghost use Rattle.survey_net.specs.Along.{are_pairs, is_clear_at, is_one, meets_next};

use net_base::{EdgeId, Offer, WireId, WirePlan, first_of, last_of};
use psn_net::Network;
use survey_reach::EdgePairs;

// Whether a wire is on at an edge.
fn is_on_at(network: &Network, wire: WireId, edge: EdgeId) -> bool
    requires wire { wire.0 < length network.now.plan.wires }
    requires edge { is_edge_of network.now.plan edge ≡ true }
    ensures { result ≡ ((network_seen network.now).edges edge.0).wire_on wire.0 }
{
    match network.edge(edge) {
        Some(edge) => edge.is_wire_on(wire),
        None => false,
    }
}

// Whether a wire is on at each edge of a path.
#[tactic(auto, using(crate::proofs::SoundLemmas::path_steps))]
fn is_on_along(network: &Network, wire: WireId, path: &[EdgeId]) -> bool
    requires wire { wire.0 < length network.now.plan.wires }
    requires edges { list_all (is_edge_of network.now.plan) path.now ≡ true }
    ensures { result ≡ is_on_along (network_seen network.now) wire.0 path.now }
{
    let mut rest = path;
    'edges: while let [first, after @ ..] = rest {
        if !is_on_at(network, wire, *first) {
            return false;
        }
        rest = after;
    }
    true
}

// Whether an edge is connected with the first one after it, where there is one.
#[tactic(auto, using(crate::proofs::SoundLemmas::one_steps))]
fn meets_next(connected: &EdgePairs, first: EdgeId, after: &[EdgeId]) -> bool
    requires first { is_one first ≡ true }
    requires after { list_all is_one after.now ≡ true }
    ensures { result ≡ meets_next (has_pair connected.now) first after.now }
{
    match after {
        [next, ..] => connected.has(first.0 as usize, next.0 as usize),
        [] => true,
    }
}

// Whether each two neighbours on a path are connected.
#[tactic(auto, using(crate::proofs::SoundLemmas::pairs_step, crate::proofs::SoundLemmas::one_steps))]
fn is_connected(connected: &EdgePairs, path: &[EdgeId]) -> bool
    requires { list_all is_one path.now ≡ true }
    ensures { result ≡ are_pairs (has_pair connected.now) path.now }
{
    let mut rest = path;
    'edges: while let [first, after @ ..] = rest {
        if !meets_next(connected, *first, after) {
            return false;
        }
        rest = after;
    }
    true
}

// Whether the end of a wire at an edge has no failure bits.
fn is_clear(network: &Network, wire: WireId, edge: Option<EdgeId>) -> bool
    requires wire { wire.0 < length network.now.plan.wires }
    requires edge { IfSome edge (λ edge. is_edge_of network.now.plan edge ≡ true) }
    ensures { result ≡ is_clear_at (network_seen network.now) wire.0 edge }
{
    match edge {
        Some(edge) => match network.edge(edge) {
            Some(edge) => edge.bits_of(wire) == 0,
            None => false,
        },
        None => false,
    }
}

// Whether both tell one MTU, where both tell one.
fn mtus_agree(near: Option<u16>, far: Option<u16>) -> bool
    ensures { result ≡ not (mtus_differ near far) }
{
    match (near, far) {
        (Some(near), Some(far)) => near == far,
        _ => true,
    }
}

// Whether two settings are one.
fn are_alike(near: bool, far: bool) -> bool
    ensures { result ≡ not (differ near far) }
{
    if near { far } else { !far }
}

// Whether two offers agree.
fn do_agree(near: &Offer, far: &Offer) -> bool
    ensures { result ≡ do_agree near.now far.now }
{
    are_alike(near.cword, far.cword)
        && are_alike(near.tagged, far.tagged)
        && mtus_agree(near.mtu, far.mtu)
}

// Whether a wire is on at each edge of its path, both its ends are clear, and its neighbours are connected.
#[tactic(auto, using(crate::proofs::SoundLemmas::sound_steps, crate::proofs::SoundLemmas::end_steps))]
fn is_sound(network: &Network, connected: &EdgePairs, wire: WireId, row: &WirePlan) -> bool
    requires wire { wire.0 < length network.now.plan.wires }
    requires edges { list_all (is_edge_of network.now.plan) row.now.path ≡ true }
    requires connected { (a b : ℕ) → has_pair connected.now a b ≡ are_peers network.now.plan (network_seen network.now) a b }
    ensures { result ≡ is_sound (network_seen network.now) wire.0 row.now }
{
    // Asked so that how many edges there are at most is at hand for the proof.
    let _count = network.count();
    let path = row.path.as_slice();
    is_on_along(network, wire, path)
        && is_connected(connected, path)
        && is_clear(network, wire, first_of(path))
        && is_clear(network, wire, last_of(path))
        && do_agree(&row.near, &row.far)
}

/// Whether the wire at a place is sound; outside the plan none is.
#[tactic(auto, using(crate::proofs::SoundLemmas::row_steps))]
pub fn is_sound_at(network: &Network, connected: &EdgePairs, wire: usize) -> bool
    requires { (a b : ℕ) → has_pair connected.now a b ≡ are_peers network.now.plan (network_seen network.now) a b }
    ensures { result ≡ sound_at network.now.plan (network_seen network.now) wire }
{
    // Asked so that the plan is known to be checked for the proof.
    let _count = network.count();
    match network.plan().wires.get(wire) {
        Some(row) => is_sound(network, connected, WireId(wire as u16), row),
        None => false,
    }
}
