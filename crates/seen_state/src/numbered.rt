//! Values by numbers.
ghost use Rattle.std.specs.Prelude.{◌≡◌, ◌==◌, ◌≤◌, ◌+◌, ℕ, Some, None, length, OnErr, OnOk, if◌then◌else◌};
ghost use Rattle.seen_state.specs.Numbered.{no_values, value_at};

use net_base::NoMemory;
use numbered_row::Row;
use std::alloc::Global;
use std::collections::BTreeMap;
use std::marker::Model;

/// How many places are made at most for one value.
const GAP: usize = 4;

/// Values by numbers. Where numbers rise one by one, or with small gaps, a value stands at the place that its number tells, and the
/// places before the first value are given up as values are taken out; those of other numbers are found, taken out and added in
/// logarithmic time.
#[derive(Drop)]
pub struct Numbered<V> {
    row: Row<V>,
    others: BTreeMap<u64, V>,
}

impl<V> Model for Numbered<V> {
    ghost use Rattle.seen_state.specs.Numbered.{Values};

    ghost Value = { Values V };

    ghost view = { λ n. record { row = n.row; others = n.others.entries } };
}

impl<V: Copy> Numbered<V> {
    /// No value.
    pub fn new(alloc: Global) -> Numbered<V>
        ensures { result ≡ no_values }
    {
        Numbered {
            row: Row::new(alloc),
            others: BTreeMap::new(alloc),
        }
    }

    /// The value of a number.
    pub fn get(&self, number: u64) -> Option<V>
        ensures { result ≡ value_at self.now number }
    {
        match self.row.get(number) {
            Some(value) => Some(*value),
            None => self.others.get(&number).copied(),
        }
    }

    /// A number has this value from now on, at a place that is made for it where few are wanting. Where memory was refused each has the
    /// one that it had.
    pub fn put(&mut self, number: u64, value: V) -> Result<(), NoMemory>
        ensures put { OnOk result ((n : ℕ) → value_at self.new n ≡ (if n == number then Some value else value_at self.old n)) }
        ensures kept { OnErr result ((n : ℕ) → value_at self.new n ≡ value_at self.old n) }
    {
        self.reach(number, GAP)?;
        self.set(number, value)
    }

    /// The same, at a place that is there, or in logarithmic time.
    #[tactic(auto, using(crate::proofs::NumberedLemmas::numbered_puts))]
    pub fn set(&mut self, number: u64, value: V) -> Result<(), NoMemory>
        ensures put { OnOk result ((n : ℕ) → value_at self.new n ≡ (if n == number then Some value else value_at self.old n)) }
        ensures kept { OnErr result ((n : ℕ) → value_at self.new n ≡ value_at self.old n) }
    {
        if self.row.has_place(number) {
            self.row.set(number, Some(value));
            return Ok(());
        }
        match self.others.insert(number, value) {
            Ok(_) => Ok(()),
            Err(_) => Err(NoMemory),
        }
    }

    /// Makes the place of a number, where at most so many are wanting, and no more than these, whatever the number is. Each number has
    /// the value that it had.
    #[tactic(auto, using(crate::proofs::NumberedLemmas::values_kept))]
    pub fn reach(&mut self, number: u64, most: usize) -> Result<(), NoMemory>
        ensures kept { (n : ℕ) → value_at self.new n ≡ value_at self.old n }
        ensures few { length self.new.row.places ≤ length self.old.row.places + most }
    {
        self.row.reach(number, most)
    }

    /// A number has no value any more; answers the one that it had.
    pub fn take(&mut self, number: u64) -> Option<V>
        ensures value { result ≡ value_at self.old number }
        ensures left { (n : ℕ) → value_at self.new n ≡ (if n == number then None else value_at self.old n) }
    {
        let here = self.row.take(number);
        let other = self.others.remove(&number);
        match here {
            Some(value) => Some(value),
            None => other,
        }
    }
}
