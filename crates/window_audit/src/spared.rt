//! The windows that an event leaves open.
ghost use Rattle.std.specs.Prelude.{◌≡◌, ◌||◌, not, ℕ, [], if◌then◌else◌};
ghost use Rattle.seen_network.specs.{Once.{names_seen, spares_seen}, Seen.{Seen}};
ghost use Rattle.seen_state.specs.Copies.{TellsPackets};
ghost use Rattle.window_audit.specs.OpenWindows.{windows_at};

use crate::open_windows::OpenWindows;
use net_base::Event;
use seen_state::Copies;

/// The windows that the event breaks are open no more: all, where no frame enters and no packet comes or goes by it, and those of a
/// frame of which it loses or repeats a copy. One that did not apply loses and repeats none.
pub(crate) fn spare(open_windows: &mut OpenWindows, copies: &Copies, event: &Event, idle: bool)
    ensures { (seen : Seen) → TellsPackets copies.now seen.under_way → (origin : ℕ) → windows_at open_windows.new origin ≡ (if spares_seen seen origin idle event.now then windows_at open_windows.old origin else []) }
{
    match *event {
        Event::Frame { .. } => {}
        Event::Arrive { .. } => {}
        Event::Discard { packet } => spoil(open_windows, copies, packet, idle),
        Event::Again { packet } => spoil(open_windows, copies, packet, idle),
        Event::Connect { .. } => open_windows.clear(),
        Event::Deliver { .. } => open_windows.clear(),
        Event::Lose { .. } => open_windows.clear(),
        Event::Restart { .. } => open_windows.clear(),
        Event::Circuit { .. } => open_windows.clear(),
        Event::Tick => open_windows.clear(),
        Event::Wire { .. } => open_windows.clear(),
        Event::Status { .. } => open_windows.clear(),
        Event::Priority { .. } => open_windows.clear(),
        Event::Ping { .. } => open_windows.clear(),
    }
}

// A packet is lost or repeated, unless it is told that the event did not apply: the windows of its frame are open no more.
fn spoil(open_windows: &mut OpenWindows, copies: &Copies, packet: u64, idle: bool)
    ensures { (seen : Seen) → TellsPackets copies.now seen.under_way → (origin : ℕ) → windows_at open_windows.new origin ≡ (if idle || not (names_seen seen origin packet) then windows_at open_windows.old origin else []) }
{
    if idle {
        return;
    }
    let Some(origin) = copies.origin(packet) else {
        return;
    };
    open_windows.take(origin);
}
