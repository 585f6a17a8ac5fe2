//! The window of a frame that enters.
ghost use Rattle.std.specs.Prelude.{◌≡◌, ℕ, List as Items, Option as Maybe, length, option_map};
ghost use Rattle.net_base.specs.{declared.trace.entry.Entry.{Entry as Told}, plan.Accepted.{IsWithinLimits}};
ghost use Rattle.seen_network.specs.{Seen.{Seen, seen_in}, Windows.{IsOpened}};
ghost use Rattle.seen_state.specs.SeenState.{Knows};
ghost use Rattle.window_audit.specs.{CalmMemory.{Remembers}, Opening.{window_with}, WindowState.{IsFirstOf, placed_behind}};

use crate::calm_memory::CalmMemory;
use crate::opening::{Opening, open_at};
use net_base::{CircuitId, Event, Plan};
use seen_network::Window;
use seen_state::SeenState;

/// The window of the frame that entered by an event: under which number it entered first, and behind how many entries.
pub(crate) fn opened(
    state: &SeenState,
    calm: &mut CalmMemory,
    plan: &Plan,
    event: &Event,
    entered: Option<(u64, u64)>,
) -> Option<Window>
    requires { IsWithinLimits plan.now }
    ensures opens { (before rest : Items Told) (first : Maybe (ℕ × ℕ)) → IsFirstOf event.now rest first → entered ≡ option_map (placed_behind (length before)) first → Knows state.now (seen_in before) → Remembers plan.now (seen_in before) calm.old → IsOpened plan.now before event.now rest result }
    ensures remembers { (seen : Seen) → Knows state.now seen → Remembers plan.now seen calm.old → Remembers plan.now seen calm.new }
{
    let Some(entered) = entered else {
        return None;
    };
    match *event {
        Event::Frame { circuit, ref bytes } => {
            let opening = open_at(state, calm, plan, circuit, bytes.as_slice());
            window_with(opening, circuit, entered)
        }
        Event::Connect { .. } => None,
        Event::Deliver { .. } => None,
        Event::Lose { .. } => None,
        Event::Restart { .. } => None,
        Event::Circuit { .. } => None,
        Event::Tick => None,
        Event::Arrive { .. } => None,
        Event::Discard { .. } => None,
        Event::Again { .. } => None,
        Event::Wire { .. } => None,
        Event::Status { .. } => None,
        Event::Priority { .. } => None,
        Event::Ping { .. } => None,
    }
}

// The window of a frame of which this is known, where one opens.
fn window_with(opening: Option<Opening>, sender: CircuitId, entered: (u64, u64)) -> Option<Window>
    ensures { result ≡ option_map (window_with sender entered) opening }
{
    let Some(opening) = opening else {
        return None;
    };
    let (origin, place) = entered;
    Some(Window {
        place,
        sender,
        service: opening.service,
        origin,
        destination: opening.destination,
        sites: opening.sites,
    })
}
