//! The windows that are over.
ghost use Rattle.std.specs.{Prelude.{◌≡◌, ◌++◌, ◌∷◌, [], List as Items, filter, not, OnOk, if◌then◌else◌}, List.{list_any}};
ghost use Rattle.net_base.specs.{declared.plan.Plan.{Plan}, declared.trace.entry.Entry.{Entry}};
ghost use Rattle.seen_network.specs.{Once.{is_sourced_by}, Seen.{Seen}};
ghost use Rattle.seen_state.specs.SeenState.{Knows};
ghost use Rattle.window_audit.specs.{OpenWindows.{HasClosed, are_copies_over, was_flooded, windows_at, with_first}, Sources.{HasSources}};

use crate::open_windows::OpenWindows;
use crate::sources::Sources;
use net_base::{NoMemory, ServiceId};
use net_values::Mac;
use seen_network::Window;
use seen_state::SeenState;

/// The windows of these frames are over where no copy of the frame is under way any more; those that were flooded are owed then.
pub(crate) fn close(
    open_windows: &mut OpenWindows,
    owed: &mut Vec<Window>,
    state: &SeenState,
    sources: &Sources,
    losses: &[u64],
) -> Result<(), NoMemory>
    ensures { OnOk result ((plan : Plan) (trace : Items Entry) (seen : Seen) → Knows state.now seen → HasSources plan sources.now trace → HasClosed (are_copies_over seen losses.now) (was_flooded plan trace) (windows_at open_windows.old) (windows_at open_windows.new) owed.old.items owed.new.items) }
{
    for origin in losses {
        close_one(open_windows, owed, state, sources, *origin)?;
    }
    Ok(())
}

// The windows of one frame.
fn close_one(
    open_windows: &mut OpenWindows,
    owed: &mut Vec<Window>,
    state: &SeenState,
    sources: &Sources,
    origin: u64,
) -> Result<(), NoMemory>
    ensures { OnOk result ((plan : Plan) (trace : Items Entry) (seen : Seen) → Knows state.now seen → HasSources plan sources.now trace → HasClosed (are_copies_over seen (origin ∷ [])) (was_flooded plan trace) (windows_at open_windows.old) (windows_at open_windows.new) owed.old.items owed.new.items) }
{
    if state.has(origin) {
        return Ok(());
    }
    let windows = open_windows.take(origin);
    owe_all(owed, sources, windows.first, windows.others.as_slice())
}

// Of the windows of a frame those are owed that were flooded.
fn owe_all(
    owed: &mut Vec<Window>,
    sources: &Sources,
    first: Option<Window>,
    others: &[Window],
) -> Result<(), NoMemory>
    ensures { OnOk result ((plan : Plan) (trace : Items Entry) → HasSources plan sources.now trace → owed.new.items ≡ owed.old.items ++ filter (was_flooded plan trace) (with_first first others.now)) }
{
    match first {
        Some(window) => {
            owe_one(owed, sources, &window)?;
            owe(owed, sources, others)
        }
        None => owe(owed, sources, others),
    }
}

// Of these windows those are owed that were flooded.
fn owe(owed: &mut Vec<Window>, sources: &Sources, windows: &[Window]) -> Result<(), NoMemory>
    ensures { OnOk result ((plan : Plan) (trace : Items Entry) → HasSources plan sources.now trace → owed.new.items ≡ owed.old.items ++ filter (was_flooded plan trace) windows.now) }
{
    for window in windows {
        owe_one(owed, sources, window)?;
    }
    Ok(())
}

// One window more is owed, where it was flooded.
fn owe_one(owed: &mut Vec<Window>, sources: &Sources, window: &Window) -> Result<(), NoMemory>
    ensures { OnOk result ((plan : Plan) (trace : Items Entry) → HasSources plan sources.now trace → owed.new.items ≡ owed.old.items ++ (if was_flooded plan trace window.now then window.now ∷ [] else [])) }
{
    if !was_flooded(sources, window) {
        return Ok(());
    }
    match owed.push(*window) {
        Ok(()) => Ok(()),
        Err(_) => Err(NoMemory),
    }
}

// The frame goes to a group, or to an address from which no frame entered its service.
fn was_flooded(sources: &Sources, window: &Window) -> bool
    ensures { (plan : Plan) (trace : Items Entry) → HasSources plan sources.now trace → result ≡ was_flooded plan trace window.now }
{
    match window.destination {
        Some(address) => is_new(sources, window.service, address),
        None => true,
    }
}

// No frame entered the service from the address.
fn is_new(sources: &Sources, service: ServiceId, address: Mac) -> bool
    ensures { (plan : Plan) (trace : Items Entry) → HasSources plan sources.now trace → result ≡ not (list_any (is_sourced_by plan service address.0) trace) }
{
    !sources.has(service, address)
}
