//! Values at the places of their numbers.
ghost use Rattle.std.specs.Prelude.{◌≡◌, ◌==◌, ◌<◌, ◌≤◌, ◌+◌, ◌-◌, ◌++◌, ◌∷◌, ◌^◌, ℕ, [], true, false, Some, None, length, option_copied, option_map, slice_index_or, slice_set, IfSome, OnErr, OnOk, if◌then◌else◌};
ghost use Rattle.numbered_row.specs.Places.{IsNext, has_place, placed_at, placed_from, starts_vacant, trimmed};

use net_base::NoMemory;
use std::alloc::Global;
use std::collections::VecDeque;
use std::marker::Model;

/// Places in a row, each of a number, with a value or without one. Contracts see the number of the first one and the values.
#[derive(Drop)]
pub struct Row<V> {
    first: u64,
    places: VecDeque<Option<V>>,
}

impl<V> Model for Row<V> {
    ghost use Rattle.std.specs.Prelude.{◌<◌, ◌+◌, ◌^◌, length};
    ghost use Rattle.numbered_row.specs.Places.{Places};

    ghost Value = { Places V };

    ghost view = { λ r. record { first = r.first; places = r.places.items } };

    ghost invariant = { λ r. r.first + length r.places.items < 2 ^ 64 };
}

impl<V: Drop> Row<V> {
    /// No place.
    pub fn new(alloc: Global) -> Row<V>
        ensures { result ≡ record { first = 0; places = [] } }
    {
        Row {
            first: 0,
            places: VecDeque::new(alloc),
        }
    }

    /// The number of the first place, and how many places there are.
    pub fn places(&self) -> (u64, usize)
        ensures first { result.0 ≡ self.now.first }
        ensures count { result.1 ≡ length self.now.places }
    {
        (self.first, self.places.len())
    }

    /// The value at the first place, behind its number.
    #[tactic(auto, using(crate::proofs::PlaceLemmas::same_place))]
    pub fn first(&self) -> Option<(u64, &V)>
        ensures value { option_map (λ found. found.1.now) result ≡ slice_index_or self.now.places 0 None }
        ensures number { IfSome result (λ found. found.0 ≡ self.now.first) }
    {
        match self.places.front() {
            Some(Some(value)) => Some((self.first, value)),
            _ => None,
        }
    }

    /// Whether a number has a place.
    pub fn has_place(&self, number: u64) -> bool
        ensures { result ≡ has_place self.now number }
    {
        self.first <= number && number - self.first < self.places.len() as u64
    }

    /// The value at the place of a number; `None` where it has none.
    #[tactic(auto, using(crate::proofs::PlaceLemmas::places_read, crate::proofs::PlaceLemmas::placed_past))]
    pub fn get(&self, number: u64) -> Option<&V>
        ensures { option_copied result ≡ placed_at self.now number }
    {
        if !self.has_place(number) {
            return None;
        }
        self.places[(number - self.first) as usize].as_ref()
    }

    /// The place of a number has this value from now on, or none.
    #[tactic(auto, using(crate::proofs::PlaceLemmas::places_set))]
    pub fn set(&mut self, number: u64, value: Option<V>)
        requires { has_place self.old number ≡ true }
        ensures { (n : ℕ) → placed_at self.new n ≡ (if n == number then value else placed_at self.old n) }
    {
        let place = (number - self.first) as usize;
        self.places[place] = value;
    }

    /// Takes out the value at the place of a number, where there is one. The places before the first value go.
    #[tactic(auto, using(crate::proofs::PlaceLemmas::places_taken))]
    pub fn take(&mut self, number: u64) -> Option<V>
        ensures value { result ≡ placed_at self.old number }
        ensures left { (n : ℕ) → placed_at self.new n ≡ (if n == number then None else placed_at self.old n) }
        ensures places { has_place self.old number ≡ true → self.new.places ≡ trimmed (slice_set self.old.places (number - self.old.first) None) }
        ensures none { has_place self.old number ≡ false → self.new ≡ self.old }
        ensures end { self.new.first + length self.new.places ≡ self.old.first + length self.old.places }
    {
        if !self.has_place(number) {
            return None;
        }
        let value = self.vacate(number);
        self.trim();
        value
    }

    // Takes the value out of the place of a number.
    #[tactic(auto, using(crate::proofs::PlaceLemmas::places_set, crate::proofs::PlaceLemmas::places_read, crate::proofs::PlaceLemmas::set_size))]
    fn vacate(&mut self, number: u64) -> Option<V>
        requires { has_place self.old number ≡ true }
        ensures value { result ≡ placed_at self.old number }
        ensures left { (n : ℕ) → placed_at self.new n ≡ (if n == number then None else placed_at self.old n) }
        ensures first { self.new.first ≡ self.old.first }
        ensures places { self.new.places ≡ slice_set self.old.places (number - self.old.first) None }
        ensures count { length self.new.places ≡ length self.old.places }
    {
        self.places[(number - self.first) as usize].take()
    }

    /// Adds a place with a value behind the last one, that of the next number; where there is none, of any number. After `NoMemory`
    /// nothing has changed.
    #[tactic(auto, using(crate::proofs::PlaceLemmas::placed_none, crate::proofs::PlaceLemmas::one_more))]
    pub fn push(&mut self, number: u64, value: V) -> Result<(), NoMemory>
        requires next { IsNext self.old number }
        requires small { number + 1 < 2 ^ 64 }
        ensures next { OnOk result (self.new.first + length self.old.places ≡ number) }
        ensures same { OnOk result (placed_from self.new.first self.old.places ≡ placed_from self.old.first self.old.places) }
        ensures places { OnOk result (self.new.places ≡ self.old.places ++ Some value ∷ []) }
        ensures few { OnOk result (length self.new.places < 2 ^ 63) }
        ensures err { OnErr result (self.new ≡ self.old) }
    {
        let first = self.first_before(number);
        match self.places.push_back(Some(value)) {
            Ok(()) => {
                self.first = first;
                Ok(())
            }
            Err(_) => Err(NoMemory),
        }
    }

    // The number of the first place, where that of a number is the next one.
    #[tactic(auto, using(crate::proofs::PlaceLemmas::placed_none, crate::proofs::PlaceLemmas::next_is))]
    fn first_before(&self, number: u64) -> u64
        requires { IsNext self.now number }
        ensures next { result + length self.now.places ≡ number }
        ensures same { placed_from result self.now.places ≡ placed_from self.now.first self.now.places }
    {
        if self.places.is_empty() {
            return number;
        }
        self.first
    }

    /// Makes the place of a number, where at most so many are wanting behind the last one. All values stay, and no more places are made,
    /// whatever the number is.
    pub fn reach(&mut self, number: u64, most: usize) -> Result<(), NoMemory>
        ensures kept { (n : ℕ) → placed_at self.new n ≡ placed_at self.old n }
        ensures few { length self.new.places ≤ length self.old.places + most }
    {
        self.start(number);
        let mut more = most;
        'reaching: while more > 0 && self.wants(number) {
            self.push_vacant()?;
            more -= 1;
        }
        Ok(())
    }

    // Where there is no place, the first one is to be that of a number.
    fn start(&mut self, number: u64)
        ensures kept { (n : ℕ) → placed_at self.new n ≡ placed_at self.old n }
        ensures places { self.new.places ≡ self.old.places }
    {
        if self.places.is_empty() {
            self.first = number;
        }
    }

    // Whether the place of a number would stand behind the last one.
    fn wants(&self, number: u64) -> bool
        ensures { result ≡ true → self.now.first + length self.now.places + 1 < 2 ^ 64 }
    {
        number < u64::MAX && self.first <= number && number - self.first >= self.places.len() as u64
    }

    // A place more, without a value.
    #[tactic(auto, using(crate::proofs::PlaceLemmas::place_pushed))]
    fn push_vacant(&mut self) -> Result<(), NoMemory>
        requires { self.old.first + length self.old.places + 1 < 2 ^ 64 }
        ensures kept { (n : ℕ) → placed_at self.new n ≡ placed_at self.old n }
        ensures few { length self.new.places ≤ length self.old.places + 1 }
    {
        match self.places.push_back(None) {
            Ok(()) => Ok(()),
            Err(_) => Err(NoMemory),
        }
    }

    // The places before the first value go.
    fn trim(&mut self)
        ensures kept { (n : ℕ) → placed_at self.new n ≡ placed_at self.old n }
        ensures places { self.new.places ≡ trimmed self.old.places }
        ensures end { self.new.first + length self.new.places ≡ self.old.first + length self.old.places }
    {
        'trimming: while self.starts_vacant() {
            self.drop_first();
        }
    }

    // Whether the first place has no value.
    fn starts_vacant(&self) -> bool
        ensures { result ≡ starts_vacant self.now.places }
    {
        match self.places.front() {
            Some(None) => true,
            _ => false,
        }
    }

    // The first place goes.
    #[tactic(auto, using(crate::proofs::PlaceLemmas::place_dropped, crate::proofs::PlaceLemmas::trimmed_dropped))]
    fn drop_first(&mut self)
        requires { starts_vacant self.old.places ≡ true }
        ensures kept { (n : ℕ) → placed_at self.new n ≡ placed_at self.old n }
        ensures trimmed { trimmed self.new.places ≡ trimmed self.old.places }
        ensures first { self.new.first ≡ self.old.first + 1 }
        ensures fewer { length self.new.places + 1 ≡ length self.old.places }
    {
        self.places.pop_front();
        self.first += 1;
    }
}
