//! Where frames left.
ghost use Rattle.std.specs.Prelude.{◌≡◌, ◌==◌, ◌<◌, ◌++◌, ◌∷◌, [], ℕ, List, None, Some, OnOk, length, suc, if◌then◌else◌};
ghost use Rattle.hvpls_spokes.specs.PortSet.{holds_port};
ghost use Rattle.net_base.specs.declared.trace.entry.Entry.{Entry as Told};
ghost use Rattle.seen_state.specs.Numbered.{value_at};
ghost use Rattle.window_audit.specs.Exits.{AreApart, HasExits, HasLeft, IsAtPort, has_left, is_again, is_far, leavings_of};

use crate::leavings::Leavings;
use net_base::{CircuitId, Entry, NoMemory};
use seen_state::Numbered;
use std::alloc::Global;
use std::marker::Model;

/// Where the copies of each frame left, by the number under which the frame entered. A frame of which none left has a place at most.
#[derive(Drop)]
pub struct Exits {
    places: Numbered<u64>,
    rows: Vec<Leavings>,
}

impl Model for Exits {
    ghost use Rattle.std.specs.Prelude.{length};
    ghost use Rattle.window_audit.specs.Exits.{AreApart, ExitLists};

    ghost Value = { ExitLists };

    ghost view = { λ e. record { places = e.places; rows = e.rows.items } };

    ghost invariant = { λ e. AreApart e.places (length e.rows.items) };
}

impl Exits {
    /// No frame left.
    #[tactic(auto, using(crate::proofs::ExitLemmas::none_apart, crate::proofs::ExitLemmas::none_left))]
    pub fn new(alloc: Global) -> Exits
        ensures { HasExits result [] }
    {
        Exits {
            places: Numbered::new(alloc),
            rows: Vec::new(alloc),
        }
    }

    /// Where the copies of a frame left.
    pub fn leavings(&self, origin: u64) -> Leavings
        ensures at { (c : ℕ) → holds_port result.at c ≡ has_left (leavings_of self.now origin) c }
        ensures again { result.again ≡ is_again (leavings_of self.now origin) }
        ensures far { result.far ≡ is_far (leavings_of self.now origin) }
    {
        let Some(place) = self.places.get(origin) else {
            return Leavings::none();
        };
        match self.rows.get(place as usize) {
            Some(leavings) => *leavings,
            None => Leavings::none(),
        }
    }

    /// An entry is told.
    pub fn tell(&mut self, entry: &Entry) -> Result<(), NoMemory>
        requires { IsAtPort entry.now }
        ensures { OnOk result ((trace : List Told) → HasExits self.old trace → HasExits self.new (trace ++ entry.now ∷ [])) }
    {
        match *entry {
            Entry::Left {
                circuit,
                origin,
                hops,
                ..
            } => self.leave(circuit, origin, hops),
            Entry::Did { .. } => Ok(()),
            Entry::Idle => Ok(()),
            Entry::Said { .. } => Ok(()),
            Entry::In { number, .. } => self.enter(number),
            Entry::Sent { .. } => Ok(()),
            Entry::Copied { .. } => Ok(()),
            Entry::Aged { .. } => Ok(()),
            Entry::Dropped { .. } => Ok(()),
            Entry::Session { .. } => Ok(()),
            Entry::Wire { .. } => Ok(()),
            Entry::Pong { .. } => Ok(()),
        }
    }

    // A frame enters; where frames are numbered as they enter it gets the next place.
    #[tactic(auto, using(crate::proofs::ExitLemmas::exits_kept))]
    fn enter(&mut self, number: u64) -> Result<(), NoMemory>
        ensures { OnOk result ((trace : List Told) → HasExits self.old trace → HasExits self.new trace) }
    {
        self.places.reach(number, 1)
    }

    // A copy of a frame left.
    #[tactic(auto, using(crate::proofs::ExitLemmas::row_changed, crate::proofs::ExitLemmas::left_once))]
    fn leave(&mut self, circuit: CircuitId, origin: u64, hops: u64) -> Result<(), NoMemory>
        requires { circuit.0 < 512 }
        ensures { OnOk result (HasLeft circuit origin hops self.old self.new) }
    {
        let mut leavings = self.leavings(origin);
        leavings.leave(circuit.0, hops);
        match self.places.get(origin) {
            Some(place) => {
                self.rows[place as usize] = leavings;
                Ok(())
            }
            None => self.add(origin, leavings),
        }
    }

    // A frame of which none left before.
    #[tactic(auto, using(crate::proofs::ExitLemmas::row_added))]
    fn add(&mut self, origin: u64, leavings: Leavings) -> Result<(), NoMemory>
        requires { value_at self.old.places origin ≡ None }
        ensures { OnOk result ((n : ℕ) → leavings_of self.new n ≡ (if n == origin then Some leavings else leavings_of self.old n)) }
    {
        let place = self.rows.len() as u64;
        self.push(leavings)?;
        self.place(origin, place)
    }

    // A row more, which is none of a frame yet.
    #[tactic(auto, using(crate::proofs::ExitLemmas::more_apart))]
    fn push(&mut self, leavings: Leavings) -> Result<(), NoMemory>
        ensures places { self.new.places ≡ self.old.places }
        ensures rows { OnOk result (self.new.rows ≡ self.old.rows ++ leavings ∷ []) }
    {
        match self.rows.push(leavings) {
            Ok(()) => Ok(()),
            Err(_) => Err(NoMemory),
        }
    }

    // The last row is that of a frame.
    #[tactic(auto, using(crate::proofs::ExitLemmas::row_apart, crate::proofs::ExitLemmas::kept_apart))]
    fn place(&mut self, origin: u64, place: u64) -> Result<(), NoMemory>
        requires apart { AreApart self.old.places place }
        requires last { length self.old.rows ≡ suc place }
        ensures rows { self.new.rows ≡ self.old.rows }
        ensures places { OnOk result ((n : ℕ) → value_at self.new.places n ≡ (if n == origin then Some place else value_at self.old.places n)) }
    {
        self.places.set(origin, place)
    }
}
