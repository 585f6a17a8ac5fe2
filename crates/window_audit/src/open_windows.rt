//! The windows that are open yet.
ghost use Rattle.std.specs.Prelude.{◌≡◌, ◌==◌, ◌++◌, ◌∷◌, [], ℕ, OnOk, if◌then◌else◌};
ghost use Rattle.window_audit.specs.OpenWindows.{others_at, windows_at, with_first};

use crate::taken::Taken;
use net_base::{List, NoMemory};
use seen_network::Window;
use seen_state::Numbered;
use std::alloc::Global;
use std::collections::BTreeMap;
use std::marker::Model;

/// The windows that are open yet, by the numbers of their frames. Those of a frame are found and taken out at the place that its number
/// tells, or in logarithmic time where numbers do not rise one by one; a frame has several only where a report gives one number to
/// several frames.
#[derive(Drop)]
pub struct OpenWindows {
    alloc: Global,
    firsts: Numbered<Window>,
    others: BTreeMap<u64, List<Window>>,
}

impl Model for OpenWindows {
    ghost use Rattle.window_audit.specs.OpenWindows.{WindowsByOrigin};

    ghost Value = { WindowsByOrigin };

    ghost view = { λ l. record { firsts = l.firsts; others = l.others.entries } };
}

impl OpenWindows {
    /// None is open.
    pub fn new(alloc: Global) -> OpenWindows
        ensures { (origin : ℕ) → windows_at result origin ≡ [] }
    {
        OpenWindows {
            alloc,
            firsts: Numbered::new(alloc),
            others: BTreeMap::new(alloc),
        }
    }

    /// A window opens.
    #[tactic(auto, using(crate::proofs::OpenLemmas::none_open, crate::proofs::OpenLemmas::first_put))]
    pub fn add(&mut self, window: Window) -> Result<(), NoMemory>
        ensures { OnOk result ((origin : ℕ) → windows_at self.new origin ≡ (if origin == window.origin then windows_at self.old origin ++ window ∷ [] else windows_at self.old origin)) }
    {
        if self.others.is_empty() && self.firsts.get(window.origin).is_none() {
            return self.firsts.put(window.origin, window);
        }
        self.put_behind(window)
    }

    // A window opens behind those of its frame.
    #[tactic(auto, using(crate::proofs::OpenLemmas::behind_put))]
    fn put_behind(&mut self, window: Window) -> Result<(), NoMemory>
        ensures { OnOk result ((origin : ℕ) → windows_at self.new origin ≡ (if origin == window.origin then windows_at self.old origin ++ window ∷ [] else windows_at self.old origin)) }
    {
        let origin = window.origin;
        let mut windows = self.take_others(origin);
        windows.push(window)?;
        match self.others.insert(origin, windows) {
            Ok(_) => Ok(()),
            Err(_) => Err(NoMemory),
        }
    }

    /// Takes the windows of a frame out.
    #[tactic(auto, using(crate::proofs::OpenLemmas::both_gone))]
    pub fn take(&mut self, origin: u64) -> Taken
        ensures windows { with_first result.first result.others ≡ windows_at self.old origin }
        ensures left { (other : ℕ) → windows_at self.new other ≡ (if other == origin then [] else windows_at self.old other) }
    {
        let first = self.firsts.take(origin);
        let others = self.take_others(origin);
        Taken { first, others }
    }

    // Takes the windows of a frame out that stand behind its first one.
    fn take_others(&mut self, origin: u64) -> List<Window>
        ensures firsts { self.new.firsts ≡ self.old.firsts }
        ensures windows { result ≡ others_at self.old.others origin }
        ensures left { (other : ℕ) → others_at self.new.others other ≡ (if other == origin then [] else others_at self.old.others other) }
    {
        match self.others.remove(&origin) {
            Some(windows) => windows,
            None => List::new(self.alloc),
        }
    }

    /// No window is open any more.
    pub fn clear(&mut self)
        ensures { (origin : ℕ) → windows_at self.new origin ≡ [] }
    {
        self.firsts = Numbered::new(self.alloc);
        self.others.clear();
    }
}
