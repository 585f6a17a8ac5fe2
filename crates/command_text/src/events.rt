//! The events of a document.
ghost use Rattle.std.specs.Prelude.{◌≡◌, IfOk};
ghost use Rattle.net_base.specs.{declared.plan.Plan.{Plan}, plan.Planned.{IsEventOf}};
ghost use Rattle.plan_names.specs.Planned.{names_of};
ghost use Rattle.command_text.specs.{Events.{frame_command_behind, one, row_event_in}, Planned.{IsPlanned}, Reading.{Gives}};

use crate::command_words::CommandWords;
use crate::said::{bad_word, frame_octets, goes_on, no_more, place_of};
use crate::{Command, ScenarioFault};
use event_rows::{event_made, event_shapes};
use line_shapes::read_shaped;
use net_base::{CircuitId, Event, Plan};
use octet_text::cut_at;
use plan_names::PlanNames;
use std::alloc::Global;

/// The event of the words of a text, by its row.
#[tactic(auto, unfolding(crate::specs::Events::row_event_in))]
pub fn row_event(
    plan: &Plan,
    names: &PlanNames<'_>,
    event: u32,
    text: &str,
) -> Result<Event, ScenarioFault>
    requires names { names.now ≡ names_of plan.now }
    ensures exact { result ≡ row_event_in plan.now event text.now }
    ensures planned { IfOk result (IsEventOf plan.now) }
{
    match read_shaped(plan, names, event_shapes(), &CommandWords { text }) {
        Ok((row, values)) => Ok(event_made(plan, row, &values)),
        Err(word) => Err(bad_word(event, word)),
    }
}

/// The command `frame C HEX`, with 1 to 9216 octets, by what follows the first word. These are long, so the digits are walked once.
/// The octets are in a list of this capacity or what they need.
#[tactic(auto, using(crate::proofs::PlannedLemmas::circuit_planned), unfolding(crate::specs::Events::frame_command_behind))]
pub fn frame(
    alloc: Global,
    names: &PlanNames<'_>,
    event: u32,
    capacity: usize,
    rest: &[u8],
) -> Result<Command, ScenarioFault>
    ensures exact { Gives result (one (frame_command_behind names.now event rest.now)) }
    ensures planned { (plan : Plan) → names.now ≡ names_of plan → IfOk result (IsPlanned plan) }
{
    let (name, rest) = cut_at(b' ', rest);
    let circuit = place_of(&names.circuits, event, 2, name)?;
    let bytes = frame_octets(alloc, capacity, event, 3, rest)?;
    no_more(event, 4, goes_on(rest, &bytes))?;
    Ok(Command::One(Event::Frame {
        circuit: CircuitId(circuit),
        bytes,
    }))
}
