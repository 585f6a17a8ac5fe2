//! What is known behind the events that are over.
ghost use Rattle.std.specs.Prelude.{◌≡◌, ◌<◌, ◌≤◌, ◌+◌, ◌++◌, ◌∷◌, ◌^◌, [], ℕ, true, None, Some, List as Items, length, option_map, IfOk, IfSome, OnOk};
ghost use Rattle.net_base.specs.{declared.plan.Plan.{Plan as Planned}, declared.trace.entry.Entry.{Entry as Told}};
ghost use Rattle.net_base.specs.{declared.trace.entry.Entry.TheVariants.{Did}, plan.Accepted.{IsWithinLimits}};
ghost use Rattle.seen_network.specs.{EventEntries.{HasNoEvent}, Seen.{Seen, seen_from}, Verdict.{OnceAnswers}};
ghost use Rattle.seen_network.specs.{Windows.{AreOwed}, declared.window.Window.{Window as Found}};
ghost use Rattle.seen_state.specs.{SeenState.{Knows}, SeenEdges.{sizes_of}};
ghost use Rattle.window_audit.specs.{CalmMemory.{Remembers}, During.{AreKept, AreTold, with_event}, Exits.{HasExits}};
ghost use Rattle.window_audit.specs.{OpenWindows.{is_one_of, windows_at, with_found}, Losses.{AreWithin}, WindowState.{HasWindows, IsWindowStateOf, placed_behind}, Sources.{HasSources}};

use crate::calm_memory::CalmMemory;
use crate::closed::close;
use crate::during::During;
use crate::exits::Exits;
use crate::losses::{happen, note, tell};
use crate::open_windows::OpenWindows;
use crate::opened::opened;
use crate::sources::Sources;
use crate::spared::spare;
use crate::verdict::first_unserved;
use net_base::{Entry, Event, NoMemory, Plan};
use seen_network::Window;
use seen_state::SeenState;
use std::alloc::Global;

/// What is known behind the events that are over: what is seen, the windows that are open, and those of frames that have to leave once at
/// each site; and the frames of which copies went by the last event.
#[derive(Drop)]
pub struct WindowState {
    place: u64,
    state: SeenState,
    calm: CalmMemory,
    open_windows: OpenWindows,
    owed: Vec<Window>,
    losses: Vec<u64>,
}

impl WindowState {
    /// Nothing is known.
    #[tactic(auto, using(crate::proofs::WindowStateLemmas::nothing))]
    pub fn new(alloc: Global, plan: &Plan) -> Result<WindowState, NoMemory>
        ensures of { IfOk result (IsWindowStateOf plan.now) }
        ensures place { IfOk result (λ known. known.place ≡ 0) }
        ensures windows { IfOk result (HasWindows plan.now []) }
    {
        match SeenState::new(alloc, plan) {
            Ok(state) => Ok(WindowState {
                place: 0,
                state,
                calm: CalmMemory::new(),
                open_windows: OpenWindows::new(alloc),
                owed: Vec::new(alloc),
                losses: Vec::new(alloc),
            }),
            Err(NoMemory) => Err(NoMemory),
        }
    }

    /// An event is over, and told so much; or so much was told before the first event.
    pub fn pass(&mut self, plan: &Plan, sources: &Sources, during: &During) -> Result<(), NoMemory>
        requires limits { IsWithinLimits plan.now }
        requires of { IsWindowStateOf plan.now self.old }
        requires kept { AreKept plan.now during.now }
        requires few { self.old.place + during.now.count < 2 ^ 63 }
        ensures of { OnOk result (IsWindowStateOf plan.now self.new) }
        ensures place { self.new.place ≡ self.old.place + during.now.count }
        ensures windows { OnOk result ((done rest : Items Told) → AreTold rest during.now → (during.now.event ≡ None → done ≡ []) → self.old.place ≡ length done → HasWindows plan.now done self.old → HasSources plan.now sources.now (done ++ with_event during.now.event rest) → HasWindows plan.now (done ++ with_event during.now.event rest) self.new) }
    {
        match &during.event {
            Some(event) => {
                let passed = self.pass_event(plan, sources, event, during);
                self.place += during.count;
                passed
            }
            None => {
                let passed = self.pass_first(during.kept.as_slice());
                self.place += during.count;
                passed
            }
        }
    }

    // These entries are kept of those before the first event.
    fn pass_first(&mut self, entries: &[Entry]) -> Result<(), NoMemory>
        requires bare { HasNoEvent entries.now }
        requires within { AreWithin self.old.state.seen_edges.sizes entries.now }
        requires few { self.old.state.copies.comings + length entries.now < 2 ^ 63 }
        ensures sizes { self.new.state.seen_edges.sizes ≡ self.old.state.seen_edges.sizes }
        ensures comings { OnOk result (self.new.state.copies.comings ≤ self.old.state.copies.comings + length entries.now) }
        ensures place { self.new.place ≡ self.old.place }
        ensures open_windows { self.new.open_windows ≡ self.old.open_windows }
        ensures owed { self.new.owed.items ≡ self.old.owed.items }
        ensures state { OnOk result ((seen : Seen) → Knows self.old.state seen → Knows self.new.state (seen_from seen entries.now)) }
        ensures calm { (plan : Planned) (seen : Seen) → Remembers plan seen self.old.calm → Remembers plan (seen_from seen entries.now) self.new.calm }
    {
        self.calm.tell(entries);
        tell(&mut self.state, entries, &mut self.losses)
    }

    // An event is over, and told so much. It leaves a loss for each entry that was kept, and two more.
    fn pass_event(
        &mut self,
        plan: &Plan,
        sources: &Sources,
        event: &Event,
        during: &During,
    ) -> Result<(), NoMemory>
        requires limits { IsWithinLimits plan.now }
        requires event { during.now.event ≡ Some event.now }
        requires kept { AreKept plan.now during.now }
        requires sizes { self.old.state.seen_edges.sizes ≡ sizes_of plan.now }
        requires few { self.old.state.copies.comings ≤ self.old.place }
        requires place { self.old.place + during.now.count < 2 ^ 63 }
        ensures sizes { self.new.state.seen_edges.sizes ≡ self.old.state.seen_edges.sizes }
        ensures comings { OnOk result (self.new.state.copies.comings ≤ self.old.state.copies.comings + length during.now.kept.items) }
        ensures place { self.new.place ≡ self.old.place }
        ensures losses { OnOk result (length self.new.losses.items ≤ length during.now.kept.items + 2) }
        ensures windows { OnOk result ((done rest : Items Told) → AreTold rest during.now → self.old.place ≡ length done → HasWindows plan.now done self.old → HasSources plan.now sources.now (done ++ Did event.now ∷ rest) → HasWindows plan.now (done ++ Did event.now ∷ rest) self.new) }
    {
        let idle = during.idle;
        let kept = during.kept.as_slice();
        let entered = placed(during.first, self.place);
        let window = opened(&self.state, &mut self.calm, plan, event, entered);
        spare(&mut self.open_windows, &self.state.copies, event, idle);
        self.losses.clear();
        self.calm.happen(event, idle);
        self.calm.tell(kept);
        happen(&mut self.state, event, idle, &mut self.losses)?;
        tell(&mut self.state, kept, &mut self.losses)?;
        open(&mut self.open_windows, &mut self.losses, window)?;
        close(
            &mut self.open_windows,
            &mut self.owed,
            &self.state,
            sources,
            self.losses.as_slice(),
        )
    }

    /// The first place at which a frame entered that was to be seen exactly once and was not; `None` where each was.
    #[tactic(auto, using(crate::proofs::WindowLemmas::told))]
    pub fn verdict(&self, plan: &Plan, exits: &Exits) -> Option<u64>
        requires { IsWithinLimits plan.now }
        ensures { (trace : Items Told) → AreOwed plan.now trace self.now.owed.items → HasExits exits.now trace → OnceAnswers plan.now trace result }
    {
        first_unserved(exits, plan, self.owed.as_slice())
    }
}

// The number under which a frame entered, and how many entries stand before that in the trace, of which so many stand before the event.
fn placed(first: Option<(u64, u64)>, place: u64) -> Option<(u64, u64)>
    requires { IfSome first (λ found. place + found.1 < 2 ^ 63) }
    ensures { result ≡ option_map (placed_behind place) first }
{
    match first {
        Some((origin, ahead)) => Some((origin, place + ahead)),
        None => None,
    }
}

// The window of an event opens, where it has one. It may be over at once, so its frame is one that may have lost its last copy.
fn open(
    open_windows: &mut OpenWindows,
    losses: &mut Vec<u64>,
    window: Option<Window>,
) -> Result<(), NoMemory>
    ensures opened { OnOk result ((origin : ℕ) → windows_at open_windows.new origin ≡ with_found window (windows_at open_windows.old) origin) }
    ensures kept { OnOk result ((origin : ℕ) → is_one_of losses.old.items origin ≡ true → is_one_of losses.new.items origin ≡ true) }
    ensures few { OnOk result (length losses.new.items ≤ length losses.old.items + 1) }
    ensures noted { OnOk result ((found : Found) → window ≡ Some found → is_one_of losses.new.items found.origin ≡ true) }
{
    let Some(window) = window else {
        return Ok(());
    };
    let origin = window.origin;
    open_windows.add(window)?;
    note(losses, Some(origin))
}
