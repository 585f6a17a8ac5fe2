//! The names of what lines tell.
ghost use Rattle.std.specs.Prelude.{◌≡◌};
ghost use Rattle.text_lines.specs.Lines.{word_octets};
ghost use Rattle.line_shapes.specs.Words.{edge_name, circuit_name, wire_name, arrival_name, switch_name, cause_name, wire_end_name, state_name};

use crate::choice::{Choice, word_of};
use crate::choice_values::{cause_place, state_place, switch_place, wire_end_place};
use net_base::{Arrival, CircuitId, Down, DropCause, EdgeId, Plan, StateName, WireId};
use text_lines::LineWord;

// The name of an edge by its place; empty outside the plan.
pub(crate) fn edge_at(plan: &Plan, place: usize) -> &[u8]
    ensures { result.now ≡ edge_name plan.now (record { 0 = place }) }
{
    match plan.edges.get(place) {
        Some(row) => row.name.as_slice(),
        None => &[],
    }
}

/// The name of an edge; empty outside the plan.
pub fn edge_text(plan: &Plan, edge: EdgeId) -> &[u8]
    ensures { result.now ≡ edge_name plan.now edge }
{
    edge_at(plan, edge.0 as usize)
}

/// The name of an edge as a word.
pub fn edge_word(plan: &Plan, edge: EdgeId) -> LineWord<'_>
    ensures { word_octets result ≡ edge_name plan.now edge }
{
    LineWord::Text(edge_text(plan, edge))
}

// The name of a circuit by its place; empty outside the plan.
pub(crate) fn circuit_at(plan: &Plan, place: usize) -> &[u8]
    ensures { result.now ≡ circuit_name plan.now (record { 0 = place }) }
{
    match plan.circuits.get(place) {
        Some(row) => row.name.as_slice(),
        None => &[],
    }
}

/// The name of a circuit; empty outside the plan.
pub fn circuit_text(plan: &Plan, circuit: CircuitId) -> &[u8]
    ensures { result.now ≡ circuit_name plan.now circuit }
{
    circuit_at(plan, circuit.0 as usize)
}

/// The name of a circuit as a word.
pub fn circuit_word(plan: &Plan, circuit: CircuitId) -> LineWord<'_>
    ensures { word_octets result ≡ circuit_name plan.now circuit }
{
    LineWord::Text(circuit_text(plan, circuit))
}

// The name of a wire by its place; empty outside the plan.
pub(crate) fn wire_at(plan: &Plan, place: usize) -> &[u8]
    ensures { result.now ≡ wire_name plan.now (record { 0 = place }) }
{
    match plan.wires.get(place) {
        Some(row) => row.name.as_slice(),
        None => &[],
    }
}

/// The name of a wire; empty outside the plan.
pub fn wire_text(plan: &Plan, wire: WireId) -> &[u8]
    ensures { result.now ≡ wire_name plan.now wire }
{
    wire_at(plan, wire.0 as usize)
}

/// The name of a wire as a word.
pub fn wire_word(plan: &Plan, wire: WireId) -> LineWord<'_>
    ensures { word_octets result ≡ wire_name plan.now wire }
{
    LineWord::Text(wire_text(plan, wire))
}

/// By what a frame came: a circuit, a wire, or a dash for none.
pub fn arrival_text(plan: &Plan, arrival: Arrival) -> &[u8]
    ensures { result.now ≡ arrival_name plan.now arrival }
{
    match arrival {
        Arrival::Circuit(place) => circuit_text(plan, place),
        Arrival::Wire(place) => wire_text(plan, place),
        Arrival::Own => b"-",
    }
}

/// By what a frame came as a word.
pub fn arrival_word(plan: &Plan, arrival: Arrival) -> LineWord<'_>
    ensures { word_octets result ≡ arrival_name plan.now arrival }
{
    LineWord::Text(arrival_text(plan, arrival))
}

/// `on` or `off`.
pub fn switch_text(on: bool) -> &'static str
    ensures { result.now ≡ switch_name on }
{
    word_of(Choice::Switch, switch_place(on))
}

/// The cause of a drop by its name.
pub fn cause_text(cause: DropCause) -> &'static str
    ensures { result.now ≡ cause_name cause }
{
    word_of(Choice::Cause, cause_place(cause))
}

/// `up`, or why a wire's end does not forward.
pub fn wire_end_text(down: Option<Down>) -> &'static str
    ensures { result.now ≡ wire_end_name down }
{
    word_of(Choice::End, wire_end_place(down))
}

/// The state of a session by its name; after `Ended` stands a colon and the reason.
pub fn state_text(state: StateName) -> &'static str
    ensures { result.now ≡ state_name state }
{
    word_of(Choice::State, state_place(state))
}
