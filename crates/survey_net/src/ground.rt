//! The ground of a network.
ghost use Rattle.std.specs.Prelude.{◌≡◌, ◌<◌, ℕ, true, false, length, IfOk, IfSome};
ghost use Rattle.net_base.specs.plan.RowFaults.{is_edge_of};
ghost use Rattle.psn_net.specs.Lists.{network_seen};
ghost use Rattle.survey_reach.specs.Ground.{IsGroundOf, are_peers, has_label, number_of, on_at, sound_at};
ghost use Rattle.survey_reach.specs.{Rows.{IsFilled}, Words.{has_pair}};
ghost use Rattle.survey_net.specs.Along.{number_there};

use crate::connected::connected_in;
use crate::sound::is_sound_at;
use net_base::{CircuitId, EdgeId, NoMemory, WireId, first_of};
use psn_net::Network;
use std::alloc::Global;
use survey_reach::{EdgePairs, Ground};

// Of each wire, whether it is sound.
#[tactic(auto, using(survey_reach::proofs::RowLemmas::filled_none, survey_reach::proofs::RowLemmas::filled_more))]
fn sound_wires(
    alloc: Global,
    network: &Network,
    connected: &EdgePairs,
) -> Result<Vec<bool>, NoMemory>
    requires { (a b : ℕ) → has_pair connected.now a b ≡ are_peers network.now.plan (network_seen network.now) a b }
    ensures { IfOk result (λ sound. IsFilled (sound_at network.now.plan (network_seen network.now)) false (length network.now.plan.wires) sound.items) }
{
    let mut sound = Vec::new(alloc);
    for wire in 0..network.plan().wires.len() {
        sound.push(is_sound_at(network, connected, wire))?;
    }
    Ok(sound)
}

// The priority number of a wire at the first edge of its path.
fn number_there(network: &Network, wire: WireId, first: Option<EdgeId>) -> u8
    requires wire { wire.0 < length network.now.plan.wires }
    requires first { IfSome first (λ edge. is_edge_of network.now.plan edge ≡ true) }
    ensures { result ≡ number_there (network_seen network.now) wire.0 first }
{
    match first {
        Some(first) => match network.edge(first) {
            Some(edge) => edge.priority_of(wire),
            None => 0,
        },
        None => 0,
    }
}

// The priority number of the wire at a place.
#[tactic(auto, using(crate::proofs::SoundLemmas::number_steps))]
fn number_of(network: &Network, wire: usize) -> u8
    ensures { result ≡ number_of network.now.plan (network_seen network.now) wire }
{
    // Asked so that the plan is known to be checked for the proof.
    let _count = network.count();
    match network.plan().wires.get(wire) {
        Some(row) => number_there(network, WireId(wire as u16), first_of(row.path.as_slice())),
        None => 0,
    }
}

// Of each wire, its number.
#[tactic(auto, using(survey_reach::proofs::RowLemmas::filled_none, survey_reach::proofs::RowLemmas::filled_more))]
fn numbers(alloc: Global, network: &Network) -> Result<Vec<u8>, NoMemory>
    ensures { IfOk result (λ numbers. IsFilled (number_of network.now.plan (network_seen network.now)) 0 (length network.now.plan.wires) numbers.items) }
{
    let mut numbers = Vec::new(alloc);
    for wire in 0..network.plan().wires.len() {
        numbers.push(number_of(network, wire))?;
    }
    Ok(numbers)
}

// Whether the circuit at a place is on.
#[tactic(auto, using(crate::proofs::SoundLemmas::circuit_steps))]
fn is_on(network: &Network, circuit: usize) -> bool
    ensures { result ≡ on_at network.now.plan (network_seen network.now) circuit }
{
    // Asked so that the plan is known to be checked for the proof.
    let _count = network.count();
    match network.plan().circuits.get(circuit) {
        Some(row) => match network.edge(row.edge) {
            Some(edge) => edge.is_on(CircuitId(circuit as u16)),
            None => false,
        },
        None => false,
    }
}

// Of each circuit, whether it is on.
#[tactic(auto, using(survey_reach::proofs::RowLemmas::filled_none, survey_reach::proofs::RowLemmas::filled_more))]
fn circuits_on(alloc: Global, network: &Network) -> Result<Vec<bool>, NoMemory>
    ensures { IfOk result (λ on. IsFilled (on_at network.now.plan (network_seen network.now)) false (length network.now.plan.circuits) on.items) }
{
    let mut on = Vec::new(alloc);
    for circuit in 0..network.plan().circuits.len() {
        on.push(is_on(network, circuit))?;
    }
    Ok(on)
}

// Whether an edge has a label to give.
fn has_label(network: &Network, edge: usize) -> bool
    requires { edge < length network.now.plan.edges }
    ensures { result ≡ has_label (network_seen network.now) edge }
{
    // Asked so that how many edges there are at most is at hand for the proof.
    let _count = network.count();
    match network.edge(EdgeId(edge as u16)) {
        Some(edge) => edge.has_label(),
        None => false,
    }
}

// Of each edge, whether it has one.
#[tactic(auto, using(survey_reach::proofs::RowLemmas::filled_none, survey_reach::proofs::RowLemmas::filled_more))]
fn labels(alloc: Global, network: &Network) -> Result<Vec<bool>, NoMemory>
    ensures { IfOk result (λ labels. IsFilled (has_label (network_seen network.now)) false (length network.now.plan.edges) labels.items) }
{
    let mut labels = Vec::new(alloc);
    for edge in 0..network.count() {
        labels.push(has_label(network, edge))?;
    }
    Ok(labels)
}

/// The ground of a network.
pub fn ground_of(alloc: Global, network: &Network) -> Result<Ground, NoMemory>
    ensures { IfOk result (λ found. IsGroundOf network.now.plan (network_seen network.now) found) }
{
    let connected = connected_in(network);
    Ok(Ground {
        sound: sound_wires(alloc, network, &connected)?,
        numbers: numbers(alloc, network)?,
        on: circuits_on(alloc, network)?,
        connected,
        labels: labels(alloc, network)?,
    })
}
