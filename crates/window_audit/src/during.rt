//! What the entries behind an event have told.
ghost use Rattle.std.specs.Prelude.{◌≡◌, ◌<◌, ◌+◌, ◌++◌, ◌∷◌, ◌||◌, ◌^◌, [], List, None, Some, false, IfSome, OnOk, option_map};
ghost use Rattle.net_base.specs.declared.{plan.Plan.{Plan as Planned}, trace.entry.Entry.{Entry as Told}, trace.event.Event.TheVariants.{Frame}};
ghost use Rattle.seen_network.specs.EventEntries.{HasNoEvent, is_idle_entry};
ghost use Rattle.seen_state.specs.{Placed.{IsEventWithin, IsPlaced}, SeenEdges.{sizes_of}};
ghost use Rattle.window_audit.specs.During.{AreKept, AreTold, entered_by, first_or, moves, tells_event};

use net_base::{CircuitId, Entry, Event, NoMemory};
use std::alloc::Global;

/// What is kept of the last event and of the entries behind it, or of those before the first event. Whether the event applied is known
/// when the next one is told; until then those entries wait by which what is seen may change, and of all others none is kept.
#[derive(Drop)]
pub struct During {
    pub event: Option<Event>,
    /// Whether it was told that the event did not apply.
    pub idle: bool,
    /// How many entries were told, that of the event among them.
    pub count: u64,
    /// The number under which the frame of the event entered at its circuit first, and how many of these entries stand before that.
    pub first: Option<(u64, u64)>,
    pub kept: Vec<Entry>,
}

impl During {
    /// Nothing was told.
    #[tactic(auto, using(crate::proofs::DuringLemmas::nothing_told, crate::proofs::DuringLemmas::nothing_kept))]
    pub fn new(alloc: Global) -> During
        ensures event { result.event ≡ None }
        ensures count { result.count ≡ 0 }
        ensures told { AreTold [] result }
        ensures kept { (plan : Planned) → AreKept plan result }
    {
        During {
            event: None,
            idle: false,
            count: 0,
            first: None,
            kept: Vec::new(alloc),
        }
    }

    /// An event is told. What was told before it is given up.
    #[tactic(auto, using(crate::proofs::DuringLemmas::event_told, crate::proofs::DuringLemmas::event_kept))]
    pub fn begin(&mut self, event: Event)
        ensures event { self.new.event ≡ Some event }
        ensures count { self.new.count ≡ 1 }
        ensures told { AreTold [] self.new }
        ensures kept { (plan : Planned) → IsEventWithin (sizes_of plan) event → AreKept plan self.new }
    {
        self.event = Some(event);
        self.idle = false;
        self.count = 1;
        self.first = None;
        self.kept.clear();
    }

    /// An entry is told that tells of no event.
    pub fn tell(&mut self, entry: Entry) -> Result<(), NoMemory>
        requires bare { tells_event entry ≡ false }
        requires waiting { HasNoEvent self.old.kept.items }
        requires few { self.old.count + 1 < 2 ^ 63 }
        ensures event { self.new.event ≡ self.old.event }
        ensures count { self.new.count ≡ self.old.count + 1 }
        ensures told { OnOk result ((rest : List Told) → AreTold rest self.old → AreTold (rest ++ entry ∷ []) self.new) }
        ensures kept { OnOk result ((plan : Planned) → AreKept plan self.old → IsPlaced plan entry → AreKept plan self.new) }
    {
        self.note(&entry);
        if moves(&entry) {
            self.keep(entry)
        } else {
            Ok(())
        }
    }

    // What is known of the event by one entry more, which is not kept for it.
    fn note(&mut self, entry: &Entry)
        requires { self.old.count + 1 < 2 ^ 63 }
        ensures event { self.new.event ≡ self.old.event }
        ensures idle { self.new.idle ≡ self.old.idle || is_idle_entry entry.now }
        ensures count { self.new.count ≡ self.old.count + 1 }
        ensures first { self.new.first ≡ first_or self.old.first self.old.event entry.now self.old.count }
        ensures kept { self.new.kept.items ≡ self.old.kept.items }
    {
        self.idle = self.idle || matches!(*entry, Entry::Idle);
        if self.first.is_none() {
            self.first = self.entered(entry);
        }
        self.count += 1;
    }

    // The number under which the frame of the event entered by an entry, and how many entries stand before it.
    fn entered(&self, entry: &Entry) -> Option<(u64, u64)>
        ensures { result ≡ first_or None self.now.event entry.now self.now.count }
    {
        let Some(Event::Frame { circuit, .. }) = &self.event else {
            return None;
        };
        match entered_by(entry, *circuit) {
            Some(number) => Some((number, self.count)),
            None => None,
        }
    }

    // An entry waits.
    fn keep(&mut self, entry: Entry) -> Result<(), NoMemory>
        ensures event { self.new.event ≡ self.old.event }
        ensures idle { self.new.idle ≡ self.old.idle }
        ensures count { self.new.count ≡ self.old.count }
        ensures first { self.new.first ≡ self.old.first }
        ensures kept { OnOk result (self.new.kept.items ≡ self.old.kept.items ++ entry ∷ []) }
    {
        match self.kept.push(entry) {
            Ok(()) => Ok(()),
            Err(_) => Err(NoMemory),
        }
    }
}

// The number under which a frame entered at the circuit by the entry.
fn entered_by(entry: &Entry, circuit: CircuitId) -> Option<u64>
    ensures { result ≡ entered_by circuit entry.now }
{
    match *entry {
        Entry::In {
            circuit: at,
            number,
            ..
        } if at == circuit => Some(number),
        _ => None,
    }
}

// Whether what is seen may change by an entry.
fn moves(entry: &Entry) -> bool
    ensures { result ≡ moves entry.now }
{
    matches!(
        *entry,
        Entry::Said { .. }
            | Entry::Session { .. }
            | Entry::Wire { .. }
            | Entry::Sent { .. }
            | Entry::Copied { .. }
            | Entry::Aged { .. }
    )
}
