//! The trace of a run as it is written.
ghost use Rattle.std.specs.Prelude.{◌≡◌, ◌<◌, ◌+◌, ◌++◌, ◌∷◌, [], IfOk, OnErr, OnOk, if◌then◌else◌};
ghost use Rattle.psn_net.specs.Weight.{weight_of, entry_weight, is_event, next_event};

use net_base::{Entry, Event, List, NoMemory, Trace};
use std::alloc::Global;
use std::marker::Model;

/// The entries of a run in order, with their weight and the number of events among them. Contracts see the entries.
#[derive(Drop)]
pub struct Ledger {
    trace: Trace,
    weight: u64,
    events: u64,
}

impl Model for Ledger {
    ghost use Rattle.std.specs.Prelude.{◌≡◌, List};
    ghost use Rattle.net_base.specs.declared.trace.entry.Entry.{Entry};
    ghost use Rattle.psn_net.specs.Weight.{IsCounted};

    ghost Value = { List Entry };

    ghost view = { λ l. l.trace };

    ghost invariant = { λ l. IsCounted l.trace l.weight l.events };
}

impl Ledger {
    /// No entry yet, with room for so many.
    pub fn with_capacity(alloc: Global, entries: usize) -> Result<Ledger, NoMemory>
        ensures { IfOk result (λ ledger. ledger ≡ []) }
    {
        Ok(Ledger {
            trace: List::with_capacity(alloc, entries)?,
            weight: 0,
            events: 0,
        })
    }

    /// Adds an entry. After `NoMemory` nothing has changed.
    #[inline(always)]
    #[tactic(auto, using(crate::proofs::WeightLemmas::counted_more))]
    pub fn add(&mut self, entry: Entry) -> Result<(), NoMemory>
        ensures ok { OnOk result (self.new ≡ self.old ++ entry ∷ []) }
        ensures err { OnErr result (self.new ≡ self.old) }
    {
        let weight = (octets_in(&entry) as u64).saturating_add(64);
        let events = events_of_entry(&entry);
        match self.trace.push(entry) {
            Ok(()) => {
                self.weight = self.weight.saturating_add(weight);
                self.events = self.events.saturating_add(events);
                Ok(())
            }
            Err(fault) => Err(fault),
        }
    }

    /// The entries.
    pub fn trace(&self) -> &Trace
        ensures { result.now ≡ self.now }
    {
        &self.trace
    }

    /// The entries.
    pub fn into_trace(self) -> Trace
        ensures { result ≡ self }
    {
        self.trace
    }

    /// The weight of the entries.
    pub fn weight(&self) -> u64
        ensures { result ≡ weight_of self.now }
    {
        self.weight
    }

    /// The number that the next event has, counted from 1 and up to 2^64 - 1.
    #[tactic(auto, using(crate::proofs::WeightLemmas::next_event_is))]
    pub fn next_event(&self) -> u64
        ensures { result ≡ next_event self.now }
    {
        self.events.saturating_add(1)
    }
}

// An event counts as one.
#[inline(always)]
fn events_of_entry(entry: &Entry) -> u64
    ensures { result ≡ (if is_event entry.now then 1 else 0) }
{
    match entry {
        Entry::Did { .. } => 1,
        _ => 0,
    }
}

// How many octets of a frame, packet or PDU an entry holds.
#[inline(always)]
fn octets_in(entry: &Entry) -> usize
    ensures { result + 64 ≡ entry_weight entry.now }
{
    match entry {
        Entry::Did {
            event: Event::Frame { bytes, .. },
        }
        | Entry::Said { bytes, .. }
        | Entry::In { bytes, .. }
        | Entry::Sent { bytes, .. }
        | Entry::Left { bytes, .. } => bytes.len(),
        _ => 0,
    }
}
