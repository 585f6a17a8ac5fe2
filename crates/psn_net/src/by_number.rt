//! Packets under way by number.
ghost use Rattle.std.specs.Prelude.{◌≡◌, ◌<◌, ◌≤◌, ◌+◌, ◌-◌, ◌*◌, ◌^◌, ◌↔◌, ℕ, [], true, cond, Some, None, length, option_copied, slice_get, IfSome, IsSome, OnErr, OnOk};
ghost use Rattle.std.specs.{BTreeMap.{insert_entry, is_at}, List.Sorted.{IsStrictlySortedBy}, Map.{keys_of, remove_entry}};
ghost use Rattle.std.specs.Ordering.{nat_cmp};
ghost use Rattle.numbered_row.specs.Places.{IsNext};
ghost use Rattle.psn_net.specs.Packets.{kept_under};

use crate::carried::Carried;
use net_base::NoMemory;
use numbered_row::Row;
use std::alloc::Global;
use std::collections::BTreeMap;
use std::marker::Model;

/// The next packet has a place in the row where that has at most so many places for a packet in it.
const MOST_PLACES: usize = 4;

/// So many packets are counted that are not there: a row with few places may be empty but for one.
const SPARE_PACKETS: usize = 16;

/// Packets by number, and the number of the last one. As a rule all stand in a row at the places of their numbers, so that one is
/// found, taken out and added at once. Where too many of the places are vacant, packets that are added go to a tree until that is
/// empty again and the row is: so no more room is taken than for some times the packets. Contracts see them by rising number.
#[derive(Drop)]
pub struct ByNumber {
    row: Row<Carried>,
    held: usize,
    rest: BTreeMap<u64, Carried>,
    last: u64,
}

impl Model for ByNumber {
    ghost use Rattle.std.specs.Prelude.{◌++◌};
    ghost use Rattle.numbered_row.specs.Places.{placed_from};
    ghost use Rattle.psn_net.specs.ByNumber.{AreByNumber, Numbered};

    ghost Value = { Numbered };

    ghost view = { λ p. record { entries = placed_from p.row.first p.row.places ++ p.rest.entries; last = p.last } };

    ghost invariant = { λ p. AreByNumber p.row p.held p.rest.entries p.last };
}

impl ByNumber {
    /// No packet, and none was sent.
    pub fn new(alloc: Global) -> ByNumber
        ensures { result ≡ record { entries = []; last = 0 } }
    {
        ByNumber {
            row: Row::new(alloc),
            held: 0,
            rest: BTreeMap::new(alloc),
            last: 0,
        }
    }

    /// How many packets there are.
    pub fn len(&self) -> usize
        ensures len { result ≡ length self.now.entries }
        ensures ordered { IsStrictlySortedBy nat_cmp (keys_of self.now.entries) }
    {
        self.held + self.rest.len()
    }

    /// The number of the last packet that was added; 0 where none was.
    pub fn last(&self) -> u64
        ensures { result ≡ self.now.last }
    {
        self.last
    }

    /// The packet with the lowest number, behind its number.
    pub fn first(&self) -> Option<(u64, &Carried)>
        ensures variant { IsSome result ↔ (0 < length self.now.entries) }
        ensures first { IfSome result (λ found. slice_get self.now.entries 0 ≡ Some (found.0, found.1.now)) }
        ensures value { IfSome result (λ found. kept_under found.0 self.now.entries ≡ Some found.1.now) }
    {
        if let Some(first) = self.row.first() {
            return Some(first);
        }
        match self.rest.first_key_value() {
            Some((number, carried)) => Some((*number, carried)),
            None => None,
        }
    }

    /// The packet with a number.
    pub fn get(&self, number: u64) -> Option<&Carried>
        ensures value { option_copied result ≡ kept_under number self.now.entries }
    {
        match self.row.get(number) {
            Some(carried) => Some(carried),
            None => self.rest.get(&number),
        }
    }

    /// Takes out the packet with a number.
    pub fn remove(&mut self, number: u64) -> Option<Carried>
        ensures value { result ≡ kept_under number self.old.entries }
        ensures updates { (m : ℕ) → kept_under m self.new.entries ≡ cond (is_at (nat_cmp number) m) None (kept_under m self.old.entries) }
        ensures entries { self.new.entries ≡ remove_entry (is_at (nat_cmp number)) self.old.entries }
        ensures last { self.new.last ≡ self.old.last }
    {
        match self.row.take(number) {
            Some(carried) => {
                self.held -= 1;
                Some(carried)
            }
            None => self.rest.remove(&number),
        }
    }

    /// Adds a packet with the next number. After `NoMemory` nothing has changed.
    pub fn push(&mut self, carried: Carried) -> Result<(), NoMemory>
        requires { self.old.last + 1 < 2 ^ 64 }
        ensures updates { OnOk result ((m : ℕ) → kept_under m self.new.entries ≡ cond (is_at (nat_cmp (self.old.last + 1)) m) (Some carried) (kept_under m self.old.entries)) }
        ensures entries { OnOk result (self.new.entries ≡ insert_entry nat_cmp self.old.entries (self.old.last + 1) carried) }
        ensures last { OnOk result (self.new.last ≡ self.old.last + 1) }
        ensures err { OnErr result (self.new ≡ self.old) }
    {
        let number = self.last + 1;
        if self.rest.is_empty() && takes_next(&self.row, self.held, number) {
            self.row.push(number, carried)?;
            self.held += 1;
            self.last = number;
            return Ok(());
        }
        self.rest.insert(number, carried)?;
        self.last = number;
        Ok(())
    }
}

// The row takes the packet with the next number where it has fewer places than four times what is in it and 17.
fn takes_next(row: &Row<Carried>, held: usize, number: u64) -> bool
    requires behind { row.now.first + length row.now.places ≤ number }
    requires held { held < 2 ^ 63 }
    ensures next { result ≡ true → IsNext row.now number }
    ensures small { result ≡ true → number + 1 < 2 ^ 64 }
    ensures few { result ≡ true → length row.now.places < 4 * (held + 17) }
{
    if number == u64::MAX {
        return false;
    }
    let (first, places) = row.places();
    if places == 0 {
        return true;
    }
    number - first == places as u64 && places / MOST_PLACES <= held + SPARE_PACKETS
}
