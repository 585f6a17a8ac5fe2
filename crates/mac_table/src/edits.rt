//! Changes of what a table stores.
ghost use Rattle.std.specs.{Prelude.{◌≡◌, ◌<◌, ◌≤◌, ◌++◌, ◌∷◌, [], filter, length, vec_capacity, vec_len, IsTrue}, List.{remove}};
ghost use Rattle.mac_table.specs.{Addresses.{AreDistinctAddresses, learned, learning_of}, Removal.{keeps_entry}};

use crate::index::{add, put_at, refill};
use crate::removal::Removal;
use crate::search::place_of;
use crate::stored::Stored;
use crate::{Learned, MacEntry};

// Puts the entry at the end of a list that has room for it; the room of the list stays what it is.
#[tactic(auto, using(std::proofs::lemmas::List::Edits::insert_end))]
pub(crate) fn append(entries: &mut Vec<MacEntry>, entry: MacEntry)
    requires { vec_len entries.old < vec_capacity entries.old }
    ensures items { entries.new.items ≡ entries.old.items ++ entry ∷ [] }
    ensures room { vec_capacity entries.new ≡ vec_capacity entries.old }
{
    // Where there is room `insert` promises that it stays, and `push` does not.
    let end = entries.len();
    entries.insert(end, entry).unwrap();
}

impl Stored {
    // Puts the entry in place of the one of its address, or at the end where there is room.
    #[tactic(auto, using(crate::proofs::AddressLemmas::held_at, crate::proofs::AddressLemmas::absent_past, crate::proofs::AddressLemmas::written_at))]
    pub(crate) fn put(&mut self, entry: MacEntry) -> Learned
        ensures learning { result ≡ learning_of self.old entry.address }
        ensures entries { self.new ≡ record self.old { entries = learned self.old entry } }
        ensures within { length self.old.entries ≤ self.old.capacity }
        ensures stood { AreDistinctAddresses self.old.entries }
        ensures distinct { AreDistinctAddresses self.new.entries }
    {
        let place = place_of(self.entries.as_slice(), &self.index, entry.address);
        if place < self.entries.len() {
            self.entries[place] = entry;
            put_at(&mut self.index, place, entry);
            return Learned::Kept;
        }
        if self.entries.len() < self.capacity as usize {
            add(&mut self.index, self.entries.as_slice(), entry);
            append(&mut self.entries, entry);
            return Learned::New;
        }
        Learned::NotLearned
    }

    // Takes the entry at the place out. The others stay in order.
    pub(crate) fn take_at(&mut self, place: usize)
        requires { place < length self.old.entries }
        ensures { self.new ≡ record self.old { entries = remove self.old.entries place } }
    {
        self.index.shift_remove_index(place);
        self.entries.remove(place);
    }

    // Takes entries out one by one, until that has moved more entries than it would take to fill the map anew. True where all are
    // out that go.
    fn take_few(&mut self, removal: Removal<'_>) -> bool
        ensures all { IsTrue result → self.new ≡ record self.old { entries = filter (keeps_entry removal.entry) self.old.entries } }
        ensures rest { record self.new { entries = filter (keeps_entry removal.entry) self.new.entries } ≡ record self.old { entries = filter (keeps_entry removal.entry) self.old.entries } }
        ensures distinct { AreDistinctAddresses self.new.entries }
    {
        let mut moves = self.index.capacity().saturating_mul(8);
        let mut place = 0;
        'taking: while place < self.entries.len() {
            if removal.keeps(&self.entries[place]) {
                place += 1;
            } else {
                let moved = self.entries.len() - place;
                if moved > moves {
                    return false;
                }
                moves -= moved;
                self.take_at(place);
            }
        }
        true
    }

    // Takes all entries out that go, and fills the map anew.
    pub(crate) fn take_many(&mut self, removal: Removal<'_>)
        ensures distinct { AreDistinctAddresses self.new.entries }
        ensures entries { self.new ≡ record self.old { entries = filter (keeps_entry removal.entry) self.old.entries } }
    {
        self.entries.retain(|entry| removal.keeps(entry));
        refill(&mut self.index, self.entries.as_slice());
    }

    // Takes all entries out that go. The others stay in order.
    pub(crate) fn take_out(&mut self, removal: Removal<'_>)
        ensures entries { self.new ≡ record self.old { entries = filter (keeps_entry removal.entry) self.old.entries } }
        ensures distinct { AreDistinctAddresses self.new.entries }
    {
        if !self.take_few(removal) {
            self.take_many(removal);
        }
    }
}
