//! What is seen behind an event and its entries, and the frames of which copies went by them.
ghost use Rattle.std.specs.Prelude.{◌≡◌, ◌<◌, ◌≤◌, ◌+◌, ◌^◌, ℕ, Some, true, false, length, OnOk};
ghost use Rattle.seen_network.specs.{Once.{has_seen}, Seen.{Seen, happened, happened_or, seen_from, told_by_itself}};
ghost use Rattle.seen_network.specs.EventEntries.{HasNoEvent};
ghost use Rattle.seen_state.specs.{Copies.{TellsPackets}, Placed.{IsEventWithin, IsWithin}, SeenState.{Knows}};
ghost use Rattle.window_audit.specs.{OpenWindows.{is_one_of}, Losses.{AreWithin, Follows}};

use net_base::{Entry, Event, NoMemory};
use seen_state::{Copies, SeenState};

/// An event happens, unless it is told that it did not apply. The frame of which a copy may go by it is added to those that lost one.
pub(crate) fn happen(
    state: &mut SeenState,
    event: &Event,
    idle: bool,
    losses: &mut Vec<u64>,
) -> Result<(), NoMemory>
    requires { IsEventWithin state.old.seen_edges.sizes event.now }
    ensures sizes { state.new.seen_edges.sizes ≡ state.old.seen_edges.sizes }
    ensures comings { state.new.copies.comings ≡ state.old.copies.comings }
    ensures few { OnOk result (length losses.new.items ≤ length losses.old.items + 1) }
    ensures follows { OnOk result ((seen : Seen) → Knows state.old seen → Follows seen (happened_or idle event.now seen) state.new losses.old.items losses.new.items) }
{
    if idle {
        return Ok(());
    }
    let going = going_by_event(&state.copies, event);
    state.happen(event)?;
    note(losses, going)
}

/// Entries are told, none of them of an event. The frames of which a copy may go by them are added to those that lost one.
pub(crate) fn tell(
    state: &mut SeenState,
    entries: &[Entry],
    losses: &mut Vec<u64>,
) -> Result<(), NoMemory>
    requires bare { HasNoEvent entries.now }
    requires within { AreWithin state.old.seen_edges.sizes entries.now }
    requires few { state.old.copies.comings + length entries.now < 2 ^ 63 }
    ensures sizes { state.new.seen_edges.sizes ≡ state.old.seen_edges.sizes }
    ensures comings { OnOk result (state.new.copies.comings ≤ state.old.copies.comings + length entries.now) }
    ensures few { OnOk result (length losses.new.items ≤ length losses.old.items + length entries.now) }
    ensures follows { OnOk result ((seen : Seen) → Knows state.old seen → Follows seen (seen_from seen entries.now) state.new losses.old.items losses.new.items) }
{
    for entry in entries {
        tell_one(state, entry, losses)?;
    }
    Ok(())
}

// An entry is told.
fn tell_one(state: &mut SeenState, entry: &Entry, losses: &mut Vec<u64>) -> Result<(), NoMemory>
    requires within { IsWithin state.old.seen_edges.sizes entry.now }
    requires few { state.old.copies.comings < 2 ^ 63 }
    ensures sizes { state.new.seen_edges.sizes ≡ state.old.seen_edges.sizes }
    ensures comings { OnOk result (state.new.copies.comings ≤ state.old.copies.comings + 1) }
    ensures few { OnOk result (length losses.new.items ≤ length losses.old.items + 1) }
    ensures follows { OnOk result ((seen : Seen) → Knows state.old seen → Follows seen (told_by_itself entry.now seen) state.new losses.old.items losses.new.items) }
{
    let going = going_by_entry(&state.copies, entry);
    state.tell(entry)?;
    note(losses, going)
}

// The frame of which a copy goes by an event.
fn going_by_event(copies: &Copies, event: &Event) -> Option<u64>
    ensures { (seen : Seen) → TellsPackets copies.now seen.under_way → (origin : ℕ) → has_seen seen origin ≡ true → has_seen (happened event.now seen) origin ≡ false → result ≡ Some origin }
{
    match *event {
        Event::Arrive { packet } => copies.origin(packet),
        Event::Discard { packet } => copies.origin(packet),
        Event::Connect { .. } => None,
        Event::Deliver { .. } => None,
        Event::Lose { .. } => None,
        Event::Restart { .. } => None,
        Event::Circuit { .. } => None,
        Event::Tick => None,
        Event::Frame { .. } => None,
        Event::Again { .. } => None,
        Event::Wire { .. } => None,
        Event::Status { .. } => None,
        Event::Priority { .. } => None,
        Event::Ping { .. } => None,
    }
}

// The frame of which a copy goes by an entry: an aged packet, or one in whose place another comes.
fn going_by_entry(copies: &Copies, entry: &Entry) -> Option<u64>
    ensures { (seen : Seen) → TellsPackets copies.now seen.under_way → (origin : ℕ) → has_seen seen origin ≡ true → has_seen (told_by_itself entry.now seen) origin ≡ false → result ≡ Some origin }
{
    match *entry {
        Entry::Sent { packet, .. } => copies.origin(packet),
        Entry::Copied { packet, .. } => copies.origin(packet),
        Entry::Aged { packet } => copies.origin(packet),
        Entry::Said { .. } => None,
        Entry::Session { .. } => None,
        Entry::Wire { .. } => None,
        Entry::Did { .. } => None,
        Entry::Idle => None,
        Entry::In { .. } => None,
        Entry::Left { .. } => None,
        Entry::Dropped { .. } => None,
        Entry::Pong { .. } => None,
    }
}

/// Adds a frame, where one is told.
pub(crate) fn note(losses: &mut Vec<u64>, going: Option<u64>) -> Result<(), NoMemory>
    ensures few { OnOk result (length losses.new.items ≤ length losses.old.items + 1) }
    ensures kept { OnOk result ((origin : ℕ) → is_one_of losses.old.items origin ≡ true → is_one_of losses.new.items origin ≡ true) }
    ensures noted { OnOk result ((origin : ℕ) → going ≡ Some origin → is_one_of losses.new.items origin ≡ true) }
{
    let Some(origin) = going else {
        return Ok(());
    };
    match losses.push(origin) {
        Ok(()) => Ok(()),
        Err(_) => Err(NoMemory),
    }
}
