//! The map beside the entries of a table.
ghost use Rattle.std.specs.Prelude.{◌≡◌, ◌≤◌, ◌+◌, ◌++◌, [], ◌∷◌, false, length};
ghost use Rattle.indexmap.specs.IndexMap.{index_map_len, set_value_at, spare};
ghost use Rattle.mac_table.specs.{Addresses.{AreDistinctAddresses, has_address}, Index.{IsAddressIndex, address_pairs}};

use crate::MacEntry;
use indexmap::IndexMap;
use net_values::Mac;

// Puts the port and the tick of an entry at its place, where the map is not empty.
#[tactic(auto, using(crate::proofs::IndexLemmas::set_past))]
pub(crate) fn put_at(index: &mut IndexMap<Mac, (u16, u64)>, place: usize, entry: MacEntry)
    ensures { index.new.entries ≡ set_value_at index.old.entries place (entry.port, entry.tick) }
{
    if place < index.len() {
        index[place] = (entry.port, entry.tick);
    }
}

// Puts the entries in anew, where the emptied map has room for all; else it stays empty.
pub(crate) fn refill(index: &mut IndexMap<Mac, (u16, u64)>, entries: &[MacEntry])
    requires { AreDistinctAddresses entries.now }
    ensures index { IsAddressIndex index.new.entries entries.now }
    ensures whole { length entries.now ≤ index_map_len index.old + spare index.old → index.new.entries ≡ address_pairs entries.now }
    ensures room { index_map_len index.old + spare index.old ≤ index_map_len index.new + spare index.new }
{
    index.clear();
    for entry in entries {
        if index.len() >= index.capacity() {
            index.clear();
            return;
        }
        index
            .insert(entry.address, (entry.port, entry.tick))
            .unwrap();
    }
}

// Puts the entry at the end. A map whose room is used up by removals is first filled anew.
pub(crate) fn add(index: &mut IndexMap<Mac, (u16, u64)>, entries: &[MacEntry], entry: MacEntry)
    requires index { IsAddressIndex index.old.entries entries.now }
    requires distinct { AreDistinctAddresses entries.now }
    requires absent { has_address entries.now entry.address ≡ false }
    ensures { IsAddressIndex index.new.entries (entries.now ++ entry ∷ []) }
{
    if index.len() == entries.len() && index.len() >= index.capacity() {
        refill(index, entries);
    }
    push(index, entries, entry);
}

// Puts the entry at the end. A map that has no room for it is emptied.
#[tactic(auto, using(crate::proofs::IndexLemmas::index_added))]
fn push(index: &mut IndexMap<Mac, (u16, u64)>, entries: &[MacEntry], entry: MacEntry)
    requires index { IsAddressIndex index.old.entries entries.now }
    requires absent { has_address entries.now entry.address ≡ false }
    ensures { IsAddressIndex index.new.entries (entries.now ++ entry ∷ []) }
{
    if index.len() == entries.len() && index.len() < index.capacity() {
        index
            .insert(entry.address, (entry.port, entry.tick))
            .unwrap();
    } else {
        index.clear();
    }
}
