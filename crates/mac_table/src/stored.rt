//! The entries that a table stores.
ghost use Rattle.std.specs.Prelude.{◌≡◌, ◌≤◌, ◌==◌, ◌⊎◌, [], length, IfOk};
ghost use Rattle.mac_table.specs.{Addresses.{AreDistinctAddresses, entry_place}, Index.{address_pairs}};

use crate::MacEntry;
use crate::search::place_of;
use indexmap::IndexMap;
use net_values::{Mac, NoMemory};
use std::alloc::Global;
use std::marker::Model;

// Entries in the order in which their addresses came, no address twice, and the map beside them. Contracts see the list of the
// entries, and how many there are at most.
#[derive(Drop)]
pub(crate) struct Stored {
    pub(crate) entries: Vec<MacEntry>,
    pub(crate) index: IndexMap<Mac, (u16, u64)>,
    pub(crate) capacity: u32,
}

impl Model for Stored {
    ghost use Rattle.std.specs.Prelude.{vec_capacity};
    ghost use Rattle.mac_table.specs.{Addresses.{AddressTable, IsHeld}, Index.{IsAddressIndex}};

    ghost Value = { AddressTable };

    ghost view = { λ t. record { entries = t.entries.items; capacity = t.capacity } };

    ghost invariant = { λ t. IsHeld t.capacity (vec_capacity t.entries) t.entries.items × IsAddressIndex t.index.entries t.entries.items };
}

impl Stored {
    // Nothing is stored, and there is memory for as many entries as are ever stored.
    pub(crate) fn open(alloc: Global, capacity: u32) -> Result<Stored, NoMemory>
        ensures { IfOk result (λ stored. stored ≡ record { entries = []; capacity = capacity }) }
    {
        Ok(Stored {
            entries: Vec::with_capacity(alloc, capacity as usize)?,
            index: IndexMap::with_capacity(alloc, capacity as usize)?,
            capacity,
        })
    }

    // How many entries are stored.
    pub(crate) fn len(&self) -> usize
        ensures count { result ≡ length self.now.entries }
        ensures within { result ≤ self.now.capacity }
        ensures distinct { AreDistinctAddresses self.now.entries }
    {
        // Named so that what always holds of both fields is at hand for the proof.
        let _capacity = self.capacity;
        self.entries.len()
    }

    // Whether as many are stored as there is room for.
    pub(crate) fn is_full(&self) -> bool
        ensures { result ≡ (length self.now.entries == self.now.capacity) }
    {
        self.entries.len() == self.capacity as usize
    }

    // The entries.
    pub(crate) fn as_slice(&self) -> &[MacEntry]
        ensures items { result.now ≡ self.now.entries }
        ensures distinct { AreDistinctAddresses self.now.entries }
        ensures within { length self.now.entries ≤ self.now.capacity }
    {
        // Named so that what always holds of both fields is at hand for the proof.
        let _capacity = self.capacity;
        self.entries.as_slice()
    }

    // The place of the address, or the number of entries where it is not stored.
    pub(crate) fn place(&self, address: Mac) -> usize
        ensures place { result ≡ entry_place self.now.entries address }
        ensures distinct { AreDistinctAddresses self.now.entries }
    {
        place_of(self.entries.as_slice(), &self.index, address)
    }

    // The map beside the entries.
    pub(crate) fn map(&self) -> &IndexMap<Mac, (u16, u64)>
        ensures { (result.now.entries ≡ address_pairs self.now.entries) ⊎ (result.now.entries ≡ []) }
    {
        &self.index
    }

    // Nothing is stored any more.
    pub(crate) fn clear(&mut self)
        ensures { self.new ≡ record self.old { entries = [] } }
    {
        self.entries.clear();
        self.index.clear();
    }
}
