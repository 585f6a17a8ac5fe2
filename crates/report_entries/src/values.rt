//! What single words say.
ghost use Rattle.report_entries.specs.Reading.{Reads, arrival_in, circuit_of_word, digits_told, edge_of_word, number_in, wire_of_word};

use crate::Unread;
use line_shapes::is_word;
use net_base::{Arrival, CircuitId, EdgeId, NoMemory, Octets, WireId};
use octet_text::octets_of;
use plan_names::{PlanNames, decimal};
use std::alloc::Global;

/// The edge of a name.
#[tactic(auto, unfolding(crate::specs::Reading::edge_of_word))]
pub fn edge(names: &PlanNames<'_>, word: &[u8]) -> Result<EdgeId, Unread>
    ensures { Reads result (edge_of_word names.now word.now) }
{
    match names.edges.place(word) {
        Some(place) => Ok(EdgeId(place)),
        None => Err(Unread::NoEntry),
    }
}

/// The circuit of a name.
#[tactic(auto, unfolding(crate::specs::Reading::circuit_of_word))]
pub fn circuit(names: &PlanNames<'_>, word: &[u8]) -> Result<CircuitId, Unread>
    ensures { Reads result (circuit_of_word names.now word.now) }
{
    match names.circuits.place(word) {
        Some(place) => Ok(CircuitId(place)),
        None => Err(Unread::NoEntry),
    }
}

/// The wire of a name.
#[tactic(auto, unfolding(crate::specs::Reading::wire_of_word))]
pub fn wire(names: &PlanNames<'_>, word: &[u8]) -> Result<WireId, Unread>
    ensures { Reads result (wire_of_word names.now word.now) }
{
    match names.wires.place(word) {
        Some(place) => Ok(WireId(place)),
        None => Err(Unread::NoEntry),
    }
}

/// By what a frame came: a circuit, a wire, or a dash.
#[tactic(auto, unfolding(crate::specs::Reading::arrival_in, crate::specs::Reading::circuit_of_word, crate::specs::Reading::wire_of_word))]
pub fn arrival(names: &PlanNames<'_>, word: &[u8]) -> Result<Arrival, Unread>
    ensures { Reads result (arrival_in names.now word.now) }
{
    if is_word(word, "-") {
        return Ok(Arrival::Own);
    }
    match names.circuits.place(word) {
        Some(place) => Ok(Arrival::Circuit(CircuitId(place))),
        None => match names.wires.place(word) {
            Some(place) => Ok(Arrival::Wire(WireId(place))),
            None => Err(Unread::NoEntry),
        },
    }
}

/// A number of 64 bits.
#[tactic(auto, unfolding(crate::specs::Reading::number_in))]
pub fn number(word: &[u8]) -> Result<u64, Unread>
    ensures { Reads result (number_in word.now) }
{
    match decimal(0, u64::MAX, word) {
        Some(number) => Ok(number),
        None => Err(Unread::NoEntry),
    }
}

/// Octets as pairs of hexadecimal digits, without capital letters.
#[tactic(auto, unfolding(crate::specs::Reading::digits_told))]
pub fn octets(alloc: Global, word: &[u8]) -> Result<Octets, Unread>
    ensures { Reads result (digits_told word.now) }
{
    match octets_of(alloc, word.len() / 2, false, word) {
        Ok(Some(octets)) => Ok(octets),
        Ok(None) => Err(Unread::NoEntry),
        Err(NoMemory) => Err(Unread::NoMemory),
    }
}
