//! The windows that a report shows.
ghost use Rattle.std.specs.Prelude.{◌≡◌, ◌<◌, ◌+◌, ◌++◌, ◌∷◌, ◌^◌, [], List, IfOk, OnOk, false};
ghost use Rattle.net_base.specs.declared.trace.entry.Entry.{Entry as Told};
ghost use Rattle.net_base.specs.plan.Accepted.{IsChecked, IsWithinLimits};
ghost use Rattle.seen_network.specs.Verdict.{OnceAnswers};
ghost use Rattle.seen_state.specs.Placed.{IsPlaced};
ghost use Rattle.window_audit.specs.{During.{tells_event}, WindowState.{IsWindowStateOf}, Windows.{AreOf, HasHeard, HasPassed, told_count}};

use crate::during::During;
use crate::exits::Exits;
use crate::sources::Sources;
use crate::window_state::WindowState;
use net_base::{Entry, NoMemory, Plan};
use std::alloc::Global;

/// What is known of a report, entry by entry: what is known behind the events that are over, what is kept of the last one, and where
/// frames came from and left.
#[derive(Drop)]
pub struct Windows {
    known: WindowState,
    during: During,
    sources: Sources,
    exits: Exits,
}

impl Windows {
    /// Nothing was told.
    #[tactic(auto, using(crate::proofs::WindowLemmas::begun, crate::proofs::WindowLemmas::begun_of))]
    pub fn new(alloc: Global, plan: &Plan) -> Result<Windows, NoMemory>
        requires { IsChecked plan.now }
        ensures ready { IfOk result (AreOf plan.now) }
        ensures count { IfOk result (λ windows. told_count windows ≡ 0) }
        ensures heard { IfOk result (HasHeard plan.now []) }
    {
        match WindowState::new(alloc, plan) {
            Ok(known) => Ok(Windows {
                known,
                during: During::new(alloc),
                sources: Sources::new(alloc),
                exits: Exits::new(alloc),
            }),
            Err(NoMemory) => Err(NoMemory),
        }
    }

    /// An entry is told, of which each edge, circuit and wire is one of the plan. One that tells of an event ends the last one.
    pub fn hear(&mut self, plan: &Plan, entry: Entry) -> Result<(), NoMemory>
        requires checked { IsChecked plan.now }
        requires placed { IsPlaced plan.now entry }
        requires ready { AreOf plan.now self.old }
        requires few { told_count self.old + 1 < 2 ^ 63 }
        ensures ready { OnOk result (AreOf plan.now self.new) }
        ensures count { OnOk result (told_count self.new ≡ told_count self.old + 1) }
        ensures heard { OnOk result ((trace : List Told) → HasHeard plan.now trace self.old → HasHeard plan.now (trace ++ entry ∷ []) self.new) }
    {
        match entry {
            Entry::Did { event } => {
                self.pass(plan)?;
                self.during.begin(event);
                Ok(())
            }
            other => self.add(plan, other),
        }
    }

    // An entry is told that tells of no event.
    fn add(&mut self, plan: &Plan, entry: Entry) -> Result<(), NoMemory>
        requires limits { IsWithinLimits plan.now }
        requires bare { tells_event entry ≡ false }
        requires placed { IsPlaced plan.now entry }
        requires ready { AreOf plan.now self.old }
        requires few { told_count self.old + 1 < 2 ^ 63 }
        ensures ready { OnOk result (AreOf plan.now self.new) }
        ensures count { OnOk result (told_count self.new ≡ told_count self.old + 1) }
        ensures heard { OnOk result ((trace : List Told) → HasHeard plan.now trace self.old → HasHeard plan.now (trace ++ entry ∷ []) self.new) }
    {
        self.sources.tell(plan, &entry)?;
        self.exits.tell(&entry)?;
        self.during.tell(entry)
    }

    // The last event is over.
    fn pass(&mut self, plan: &Plan) -> Result<(), NoMemory>
        requires limits { IsWithinLimits plan.now }
        requires ready { AreOf plan.now self.old }
        ensures of { OnOk result (IsWindowStateOf plan.now self.new.known) }
        ensures place { OnOk result (self.new.known.place ≡ told_count self.old) }
        ensures passed { OnOk result ((trace : List Told) → HasHeard plan.now trace self.old → HasPassed plan.now trace self.new) }
    {
        self.known.pass(plan, &self.sources, &self.during)
    }

    /// The place in the trace, counted from 0, of the first `in` entry of a frame that was to be seen exactly once and was not; `None`
    /// where each was.
    pub fn verdict(self, plan: &Plan) -> Result<Option<u64>, NoMemory>
        requires checked { IsChecked plan.now }
        requires ready { AreOf plan.now self }
        ensures { (trace : List Told) → HasHeard plan.now trace self → IfOk result (OnceAnswers plan.now trace) }
    {
        let mut windows = self;
        let place = windows.end(plan);
        drop(windows);
        place
    }

    // The last event is over, and no entry is told behind it: the place that is told of all of them.
    fn end(&mut self, plan: &Plan) -> Result<Option<u64>, NoMemory>
        requires limits { IsWithinLimits plan.now }
        requires ready { AreOf plan.now self.old }
        ensures { (trace : List Told) → HasHeard plan.now trace self.old → IfOk result (OnceAnswers plan.now trace) }
    {
        self.pass(plan)?;
        Ok(self.known.verdict(plan, &self.exits))
    }
}
