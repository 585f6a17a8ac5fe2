//! The table of learned addresses.
ghost use Rattle.std.specs.Prelude.{◌≡◌, ◌≤◌, ◌↔◌, ◌⊎◌, ◌+◌, ◌++◌, ℕ, [], filter, length, not, false, slice_get, vec_capacity, All, Contains, IfOk, ◌==◌};
ghost use Rattle.net_values.specs.Mac.{is_group_address};
ghost use Rattle.mac_table.specs.Addresses.{AreDistinctAddresses, NoneAfter, entry_stays, has_address, is_young, learned, learning_of, port_of};
ghost use Rattle.mac_table.specs.{Index.{address_pairs}, Stored.{young_since}};

use crate::held::{add_held, count_held, entry_at, held_at, is_any_held};
use crate::removal::Removal;
use crate::stored::Stored;
use crate::way::{begin_at, make_way};
use crate::{Learned, MacEntry};
use indexmap::IndexMap;
use net_values::{List, Mac, NoMemory};
use std::alloc::Global;
use std::marker::Model;

/// The addresses that a bridge has learned, in the order in which they came, and no address twice. Contracts
/// see the list of the entries and the capacity.
///
/// What has aged out is not held any more, and is taken out only where its room is wanted, so that to age takes no look at an entry.
#[derive(Drop)]
pub struct MacTable {
    stored: Stored,
    // Of what is stored, the entries with this tick or a later one are held.
    since: u64,
    // No entry that is stored has an earlier tick.
    oldest: u64,
    // No addresses, and no memory.
    none: IndexMap<Mac, (u16, u64)>,
}

impl Model for MacTable {
    ghost use Rattle.std.specs.Prelude.{◌≡◌, ◌≤◌, [], All};
    ghost use Rattle.mac_table.specs.{Addresses.{AddressTable}, Stored.{held_table}};

    ghost Value = { AddressTable };

    ghost view = { λ t. held_table t.since t.stored };

    ghost invariant = { λ t. All (λ e. t.oldest ≤ e.tick) t.stored.entries × (t.none.entries ≡ []) };
}

impl MacTable {
    /// An empty table for at most `capacity` addresses, with the memory for all of them. After this no call
    /// takes memory.
    pub fn open(alloc: Global, capacity: u32) -> Result<MacTable, NoMemory>
        ensures { IfOk result (λ table. table ≡ record { entries = []; capacity = capacity }) }
    {
        Ok(MacTable {
            stored: Stored::open(alloc, capacity)?,
            since: 0,
            oldest: u64::MAX,
            none: IndexMap::new(alloc),
        })
    }

    /// Learns that a frame from the address came by the port at the tick `now` (RFC 4762 section 4.2). An
    /// address that is held gets this port and tick where it stands; a new one comes to the end where there
    /// is room, and else the table stays as it was.
    pub fn learn(&mut self, address: Mac, port: u16, now: u64) -> Learned
        requires station { is_group_address address.0 ≡ false }
        requires ticks { NoneAfter now self.old.entries }
        ensures learning { result ≡ learning_of self.old address }
        ensures full { (result ≡ Learned.NotLearned) ↔ ((has_address self.old.entries address ≡ false) × (length self.old.entries ≡ self.old.capacity)) }
        ensures unchanged { result ≡ Learned.NotLearned → self.new ≡ self.old }
        ensures entries { self.new ≡ record self.old { entries = learned self.old (record { address = address; port = port; tick = now }) } }
        ensures from { All (λ e. (e ≡ record { address = address; port = port; tick = now }) ⊎ Contains self.old.entries e) self.new.entries }
        ensures ticks { NoneAfter now self.new.entries }
        ensures distinct { AreDistinctAddresses self.new.entries }
    {
        self.put(MacEntry {
            address,
            port,
            tick: now,
        })
    }

    // Puts the entry in place of the one of its address, or at the end where there is room.
    fn put(&mut self, entry: MacEntry) -> Learned
        requires { NoneAfter entry.tick self.old.entries }
        ensures learning { result ≡ learning_of self.old entry.address }
        ensures entries { self.new ≡ record self.old { entries = learned self.old entry } }
        ensures within { length self.old.entries ≤ self.old.capacity }
        ensures distinct { AreDistinctAddresses self.new.entries }
    {
        self.since = begin_at(&mut self.stored, self.since, entry.tick);
        self.oldest = make_way(&mut self.stored, self.since, self.oldest, entry.address);
        self.oldest = self.oldest.min(entry.tick);
        self.stored.put(entry)
    }

    /// The port of the address; `None` exactly where it is not in the table.
    pub fn find(&self, address: Mac) -> Option<u16>
        ensures port { result ≡ port_of self.now.entries address }
        ensures distinct { AreDistinctAddresses self.now.entries }
    {
        let place = self.stored.place(address);
        if place < self.stored.len() {
            let entry = self.stored.as_slice()[place];
            if self.since <= entry.tick {
                return Some(entry.port);
            }
        }
        None
    }

    /// Removes the addresses from which no frame came for `limit` ticks or more (RFC 4762 section 9.1). The
    /// others stay in order.
    pub fn age(&mut self, now: u64, limit: u32)
        requires { NoneAfter now self.old.entries }
        ensures entries { self.new ≡ record self.old { entries = filter (is_young now limit) self.old.entries } }
        ensures ticks { NoneAfter now self.new.entries }
        ensures distinct { AreDistinctAddresses self.new.entries }
    {
        // Named so that what always holds of the entries is at hand for the proof.
        let _stored = self.stored.len();
        if limit == 0 {
            self.stored.clear();
            return;
        }
        let since = young_since(now, limit);
        if since > self.since && since > self.oldest {
            self.since = since;
        }
    }

    /// Removes the addresses that are at the port. The others stay in order.
    pub fn drop_port(&mut self, port: u16)
        ensures entries { self.new ≡ record self.old { entries = filter (λ e. not (e.port == port)) self.old.entries } }
        ensures ticks { (now : ℕ) → NoneAfter now self.old.entries → NoneAfter now self.new.entries }
        ensures distinct { AreDistinctAddresses self.new.entries }
    {
        self.stored.take_out(Removal::Port { port });
    }

    /// Removes what a MAC withdraw that came by the port `from` names (RFC 4762 section 6.2): of a list that
    /// is not empty its addresses that are at `from`, and of an empty one all addresses that are not at
    /// `from`. The others stay in order.
    pub fn withdraw(&mut self, from: u16, list: &List<Mac>)
        ensures entries { self.new ≡ record self.old { entries = filter (entry_stays from list.now) self.old.entries } }
        ensures ticks { (now : ℕ) → NoneAfter now self.old.entries → NoneAfter now self.new.entries }
        ensures distinct { AreDistinctAddresses self.new.entries }
    {
        self.stored.take_out(Removal::Withdraw {
            from,
            addresses: list.as_slice(),
        });
    }

    /// The number of addresses.
    pub fn len(&self) -> usize
        ensures count { result ≡ length self.now.entries }
        ensures within { result ≤ self.now.capacity }
    {
        if self.since <= self.oldest {
            return self.stored.len();
        }
        count_held(self.stored.as_slice(), self.since)
    }

    /// Whether there is no address.
    pub fn is_empty(&self) -> bool
        ensures { result ≡ (length self.now.entries == 0) }
    {
        !is_any_held(self.stored.as_slice(), self.since)
    }

    /// The entry at an index from 0; `None` exactly where the index is not below the number of addresses.
    pub fn entry(&self, index: usize) -> Option<MacEntry>
        ensures { result ≡ slice_get self.now.entries index }
    {
        if self.since <= self.oldest {
            return entry_at(self.stored.as_slice(), index);
        }
        held_at(self.stored.as_slice(), self.since, index)
    }

    /// Adds the entries in the order of the table to a list that has room for them.
    pub fn add_to(&self, entries: &mut Vec<MacEntry>)
        requires { length entries.old.items + length self.now.entries ≤ vec_capacity entries.old }
        ensures items { entries.new.items ≡ entries.old.items ++ self.now.entries }
        ensures room { vec_capacity entries.new ≡ vec_capacity entries.old }
    {
        add_held(self.stored.as_slice(), self.since, entries);
    }

    /// The addresses in the order of the table, each with its port and tick; or an empty map, where it had no room for an address, or
    /// addresses have aged out since the table was full last. This takes no memory.
    pub fn map(&self) -> &IndexMap<Mac, (u16, u64)>
        ensures { (result.now.entries ≡ address_pairs self.now.entries) ⊎ (result.now.entries ≡ []) }
    {
        if self.since <= self.oldest {
            self.stored.map()
        } else {
            &self.none
        }
    }
}

// The tick since which entries are young, for a limit of one tick at least.
fn young_since(now: u64, limit: u32) -> u64
    requires { 1 ≤ limit }
    ensures { result ≡ young_since now limit }
{
    let limit = limit as u64;
    if now < limit { 0 } else { now - limit + 1 }
}
