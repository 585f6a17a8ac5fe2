//! Which services are known to be calm.
ghost use Rattle.std.specs.Prelude.{◌≡◌, ◌<◌};
ghost use Rattle.hvpls_spokes.specs.PortSet.{holds_port};
ghost use Rattle.net_base.specs.{declared.plan.Plan.{Plan as Planned}, plan.Accepted.{IsWithinLimits}};
ghost use Rattle.seen_network.specs.{Calm.{is_seen_calm}, EventEntries.{HasNoEvent}, Seen.{Seen, happened_or, seen_from}};
ghost use Rattle.seen_state.specs.SeenState.{Knows};
ghost use Rattle.window_audit.specs.CalmMemory.{Remembers, some_stirs, stirs, stirs_by};

use hvpls_spokes::PortSet as PlaceSet;
use net_base::{Entry, Event, Plan, ServiceId};
use seen_state::SeenState;

/// The services that are known to be calm, and those that are known not to be, by their places. A service is looked at once, and anew
/// only when something was told that may change it: that takes a walk over all its edges and wires.
#[derive(Clone, Copy)]
pub struct CalmMemory {
    pub calm: PlaceSet,
    pub restless: PlaceSet,
}

impl CalmMemory {
    /// Nothing is known.
    pub fn new() -> CalmMemory
        ensures { (plan : Planned) (seen : Seen) → Remembers plan seen result }
    {
        CalmMemory {
            calm: PlaceSet::empty(),
            restless: PlaceSet::empty(),
        }
    }

    /// Whether a service is seen calm (RFC 4762 sections 4.4 and 10.2).
    pub fn is_calm(&mut self, state: &SeenState, plan: &Plan, service: ServiceId) -> bool
        requires { IsWithinLimits plan.now }
        ensures is { (seen : Seen) → Knows state.now seen → Remembers plan.now seen self.old → result ≡ is_seen_calm plan.now seen service }
        ensures remembers { (seen : Seen) → Knows state.now seen → Remembers plan.now seen self.old → Remembers plan.now seen self.new }
    {
        if service.0 >= 512 {
            return state.is_calm(plan, service);
        }
        if self.calm.contains(service.0) {
            return true;
        }
        if self.restless.contains(service.0) {
            return false;
        }
        let calm = state.is_calm(plan, service);
        self.keep(service, calm);
        calm
    }

    // Keeps whether a service is calm.
    #[tactic(auto, using(crate::proofs::CalmLemmas::calm_kept, crate::proofs::CalmLemmas::restless_kept))]
    fn keep(&mut self, service: ServiceId, calm: bool)
        requires { service.0 < 512 }
        ensures { (plan : Planned) (seen : Seen) → calm ≡ is_seen_calm plan seen service → Remembers plan seen self.old → Remembers plan seen self.new }
    {
        if calm {
            self.calm.insert(service.0);
        } else {
            self.restless.insert(service.0);
        }
    }

    // Nothing is known any more.
    fn forget(&mut self)
        ensures { (plan : Planned) (seen : Seen) → Remembers plan seen self.new }
    {
        *self = CalmMemory::new();
    }

    /// An event happens, unless it is told that it did not apply.
    #[tactic(auto, using(crate::proofs::CalmLemmas::event_kept))]
    pub fn happen(&mut self, event: &Event, idle: bool)
        ensures { (plan : Planned) (seen : Seen) → Remembers plan seen self.old → Remembers plan (happened_or idle event.now seen) self.new }
    {
        if !idle && stirs_by(event) {
            self.forget();
        }
    }

    /// Entries are told, none of them of an event.
    #[tactic(auto, using(crate::proofs::CalmLemmas::entries_kept))]
    pub fn tell(&mut self, entries: &[Entry])
        requires { HasNoEvent entries.now }
        ensures { (plan : Planned) (seen : Seen) → Remembers plan seen self.old → Remembers plan (seen_from seen entries.now) self.new }
    {
        if some_stirs(entries) {
            self.forget();
        }
    }
}

// Whether an event that applied may change which services are calm.
fn stirs_by(event: &Event) -> bool
    ensures { result ≡ stirs_by event.now }
{
    matches!(
        *event,
        Event::Connect { .. } | Event::Deliver { .. } | Event::Lose { .. } | Event::Restart { .. }
    )
}

// Whether one of these entries may change it.
fn some_stirs(entries: &[Entry]) -> bool
    ensures { result ≡ some_stirs entries.now }
{
    entries.iter().any(|entry| stirs(entry))
}

// Whether an entry may change it.
fn stirs(entry: &Entry) -> bool
    ensures { result ≡ stirs entry.now }
{
    matches!(
        *entry,
        Entry::Said { .. } | Entry::Session { .. } | Entry::Wire { .. }
    )
}
