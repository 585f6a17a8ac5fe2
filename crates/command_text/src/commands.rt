//! The commands of a document.
ghost use Rattle.std.specs.{Prelude.{◌≡◌, ◌≤◌, ◌++◌, codes, length, IfOk, IfSome}, List.{All}};
ghost use Rattle.toml.specs.View.{view, items_view};
ghost use Rattle.net_base.specs.declared.plan.Plan.{Plan};
ghost use Rattle.plan_names.specs.Planned.{names_of};
ghost use Rattle.command_text.specs.Events.{most_events, repeats_in, tick_in, play_in, command_in, event_in, commands_in};
ghost use Rattle.command_text.specs.{Reading.{Gives}, Planned.{IsCount, IsPlanned}};

use crate::event_place::EventPlace;
use crate::events::{frame, row_event};
use crate::row_place::RowPlace;
use crate::said::{bad_word, file_word, name_word, no_word, number_word, word};
use crate::{Command, ScenarioFault};
use net_base::{CircuitId, Event, List, NoMemory, Plan};
use plan_names::PlanNames;
use script_text::{after, first};
use std::alloc::Global;
use toml::Value;

// N of `settle N`, `flow N` and `tick N`, from 1 to 10000.
#[tactic(auto, unfolding(crate::specs::Events::repeats_in))]
fn repeats(event: u32, text: &str) -> Result<u32, ScenarioFault>
    ensures exact { result ≡ repeats_in event text.now }
    ensures within { IfOk result IsCount }
{
    let count = number_word(1, 10000, event, 2, text)? as u32;
    match no_word(event, 3, text) {
        Ok(()) => Ok(count),
        Err(fault) => Err(fault),
    }
}

// `tick` and `tick N`.
fn tick(event: u32, text: &str) -> Result<Command, ScenarioFault>
    ensures exact { result ≡ tick_in event text.now }
    ensures planned { (plan : Plan) → IfOk result (IsPlanned plan) }
{
    match word(text, 2) {
        Some(_) => Ok(Command::Ticks(repeats(event, text)?)),
        None => Ok(Command::One(Event::Tick)),
    }
}

// `play C FILE`, of which a document has at most four.
#[tactic(auto, using(crate::proofs::PlannedLemmas::circuit_planned), unfolding(crate::specs::Events::play_in))]
fn play(
    alloc: Global,
    names: &PlanNames<'_>,
    place: EventPlace,
    text: &str,
) -> Result<Command, ScenarioFault>
    ensures exact { Gives result (play_in names.now place.event place.plays text.now) }
    ensures planned { (plan : Plan) → names.now ≡ names_of plan → IfOk result (IsPlanned plan) }
{
    if place.plays >= 4 {
        return Err(bad_word(place.event, 1));
    }
    let circuit = name_word(&names.circuits, place.event, 2, text)?;
    let file = file_word(alloc, place.event, 3, text)?;
    no_word(place.event, 4, text)?;
    Ok(Command::Play(CircuitId(circuit), file))
}

// The command of a text by its first word.
#[tactic(auto, using(crate::proofs::FrameLemmas::frame_is, crate::proofs::FrameLemmas::no_frame), unfolding(crate::specs::Events::command_of))]
fn command_by_word(
    alloc: Global,
    plan: &Plan,
    names: &PlanNames<'_>,
    place: EventPlace,
    text: &str,
) -> Result<Command, ScenarioFault>
    requires names { names.now ≡ names_of plan.now }
    ensures exact { Gives result (command_in plan.now place.event place.plays text.now) }
    ensures planned { IfOk result (IsPlanned plan.now) }
{
    match first(text) {
        "frame" => match after(text) {
            Some(rest) => frame(alloc, names, place.event, text.len(), rest.as_bytes()),
            None => Err(bad_word(place.event, 2)),
        },
        "tick" => tick(place.event, text),
        "settle" => Ok(Command::Settle(repeats(place.event, text)?)),
        "flow" => Ok(Command::Flow(repeats(place.event, text)?)),
        "play" => play(alloc, names, place, text),
        _ => Ok(Command::One(row_event(plan, names, place.event, text)?)),
    }
}

// What follows the word `frame` and its space.
fn behind_frame(text: &[u8]) -> Option<&[u8]>
    ensures { IfSome result (λ rest. text.now ≡ codes "frame " ++ rest.now) }
{
    match text {
        [b'f', b'r', b'a', b'm', b'e', b' ', rest @ ..] => Some(rest),
        _ => None,
    }
}

// The command that a text is. Frames come first, since a long document has little else. The octets of a frame get as much room as its
// text took: a text is dropped once its command is read, so the allocator has a piece of this size at hand from the text before, and
// a document is read in the memory that its texts had.
#[tactic(auto, using(crate::proofs::FrameLemmas::frame_command))]
fn command(
    alloc: Global,
    plan: &Plan,
    names: &PlanNames<'_>,
    place: EventPlace,
    text: &str,
) -> Result<Command, ScenarioFault>
    requires names { names.now ≡ names_of plan.now }
    ensures exact { Gives result (command_in plan.now place.event place.plays text.now) }
    ensures planned { IfOk result (IsPlanned plan.now) }
{
    match behind_frame(text.as_bytes()) {
        Some(rest) => frame(alloc, names, place.event, text.len(), rest),
        None => command_by_word(alloc, plan, names, place, text),
    }
}

/// The command that a text is, of which `play` may be one. `BadWord` comes exactly where a word is missing, one too many, or not what
/// has to stand there.
pub fn read_one(
    alloc: Global,
    plan: &Plan,
    names: &PlanNames<'_>,
    text: &str,
) -> Result<Command, ScenarioFault>
    requires names { names.now ≡ names_of plan.now }
    ensures exact { Gives result (command_in plan.now 1 0 text.now) }
    ensures planned { IfOk result (IsPlanned plan.now) }
{
    command(alloc, plan, names, EventPlace { event: 1, plays: 0 }, text)
}

// The command that an item is.
fn item(
    alloc: Global,
    plan: &Plan,
    names: &PlanNames<'_>,
    place: EventPlace,
    value: &Value,
) -> Result<Command, ScenarioFault>
    requires names { names.now ≡ names_of plan.now }
    ensures exact { Gives result (event_in plan.now place.event place.plays (view value.now)) }
    ensures planned { IfOk result (IsPlanned plan.now) }
{
    match value.as_str() {
        Some(text) => command(alloc, plan, names, place, text),
        None => Err(RowPlace::top().wrong_kind("events")),
    }
}

/// The commands of an array of strings, each of which is dropped as soon as its command is read. `BadWord` comes exactly
/// where a word is missing, one too many, or not what has to stand there, and at the first word of a fifth `play`.
pub fn read_commands(
    alloc: Global,
    plan: &Plan,
    names: &PlanNames<'_>,
    values: Vec<Value>,
) -> Result<List<Command>, ScenarioFault>
    requires few { length values.items ≤ most_events }
    requires names { names.now ≡ names_of plan.now }
    ensures exact { Gives result (commands_in plan.now 1 0 (items_view values.items)) }
    ensures many { IfOk result (λ commands. length commands ≡ length values.items) }
    ensures planned { IfOk result (λ commands. All (IsPlanned plan.now) commands) }
{
    let mut commands = match List::with_capacity(alloc, values.len()) {
        Ok(commands) => commands,
        Err(NoMemory) => return Err(ScenarioFault::NoMemory),
    };
    let mut plays = 0;
    for value in values {
        let place = EventPlace {
            event: commands.len() as u32 + 1,
            plays,
        };
        let command = item(alloc, plan, names, place, &value)?;
        plays = match &command {
            Command::Play(_, _) => plays + 1,
            _ => plays,
        };
        commands.push(command)?;
    }
    Ok(commands)
}
