//! The packets under way.
ghost use Rattle.std.specs.Prelude.{◌≡◌, ◌<◌, ◌≤◌, ◌+◌, ◌++◌, ◌∷◌, ◌^◌, ◌&&◌, [], true, cond, nat_lt, Some, None, length, slice_get, option_map, IfOk, IfSome, OnErr, OnOk};
ghost use Rattle.std.specs.{List.{find}, BTreeMap.{is_at}};
ghost use Rattle.network_model.specs.State.{all_older, without_number};
ghost use Rattle.psn_net.specs.Packets.{has_sending, is_aged, is_numbered, number_of, kept_packet, sending_order, with_copy_of, without_aged};

use crate::by_number::ByNumber;
use crate::carried::Carried;
use crate::departure::Departure;
use crate::sending::Sending;
use net_base::NoMemory;
use network_model::Packet;
use std::alloc::Global;
use std::collections::BTreeSet;
use std::marker::Model;

/// A packet lives fewer ticks than this.
const LIFE: u64 = 64;

/// The packets under way, the number of the last one that was sent, and how many ticks have passed. One is found, taken out and
/// added in logarithmic time, and so is the one that the next tick makes too old. None is older than one with a lower number
/// but for copies of older packets: a set has those by when they were sent.
/// Contracts see the packets by rising number.
#[derive(Drop)]
pub struct Packets {
    by_number: ByNumber,
    older: BTreeSet<Sending>,
    ticks: u64,
}

impl Model for Packets {
    ghost use Rattle.psn_net.specs.Packets.{ArePacketsKept, IsIndex, UnderWay, packets_of};

    ghost Value = { UnderWay };

    ghost view = { λ p. record { list = packets_of p.ticks p.by_number.entries; last = p.by_number.last; ticks = p.ticks } };

    ghost invariant = { λ p. ArePacketsKept p.ticks p.by_number.last p.by_number.entries × IsIndex p.by_number.entries p.older.keys };
}

impl Packets {
    /// None is under way, none was sent, and no tick has passed.
    #[tactic(auto, using(crate::proofs::PacketLemmas::index_none))]
    pub fn new(alloc: Global) -> Packets
        ensures { result ≡ record { list = []; last = 0; ticks = 0 } }
    {
        Packets {
            by_number: ByNumber::new(alloc),
            older: BTreeSet::new(alloc),
            ticks: 0,
        }
    }

    /// How many are under way.
    #[tactic(auto, using(crate::proofs::PacketLemmas::length_of))]
    pub fn len(&self) -> usize
        ensures { result ≡ length self.now.list }
    {
        self.by_number.len()
    }

    /// The number of the last one that was sent; 0 where none was.
    pub fn last(&self) -> u64
        ensures { result ≡ self.now.last }
    {
        self.by_number.last()
    }

    /// The number of the packet under way with the lowest number.
    #[tactic(auto, using(crate::proofs::PacketLemmas::first_of))]
    pub fn first(&self) -> Option<u64>
        ensures { result ≡ option_map number_of (slice_get self.now.list 0) }
    {
        match self.by_number.first() {
            Some((number, _)) => Some(number),
            None => None,
        }
    }

    /// Takes out the packet with a number, where it is under way.
    #[tactic(auto, using(crate::proofs::PacketLemmas::kept_steps))]
    pub fn take(&mut self, number: u64) -> Option<Packet>
        ensures packet { result ≡ find (is_numbered number) self.old.list }
        ensures rest { self.new ≡ record self.old { list = without_number number self.old.list } }
    {
        let Some(carried) = self.by_number.remove(number) else {
            return None;
        };
        self.older.remove(&Sending {
            since: carried.since,
            number,
        });
        Some(carried.into_packet(number, self.ticks))
    }

    /// The number of the first packet that a further tick makes 64 ticks old, where there is one.
    pub fn first_aged(&self) -> Option<u64>
        ensures number { result ≡ option_map number_of (find is_aged self.now.list) }
        ensures left { IfSome result (λ number. without_number number self.now.list ≡ without_aged self.now.list) }
    {
        // Asked so that what always holds of it is at hand for the proof.
        let _count = self.by_number.len();
        let Some((number, first)) = self.by_number.first() else {
            return None;
        };
        if self.ticks - first.since + 1 >= LIFE {
            return Some(number);
        }
        let Some(copy) = self.older.first() else {
            return None;
        };
        if self.ticks - copy.since + 1 < LIFE {
            return None;
        }
        Some(copy.number)
    }

    /// A tick passes: each packet is older. Those that it makes 64 ticks old are gone already.
    pub fn tick(&mut self)
        requires young { find is_aged self.old.list ≡ None }
        requires few { self.old.ticks + 1 < 2 ^ 64 }
        ensures { self.new ≡ record self.old { list = all_older self.old.list; ticks = self.old.ticks + 1 } }
    {
        self.ticks += 1;
    }

    /// A packet is sent: it has the next number, and its age begins. After `NoMemory` nothing has changed.
    pub fn add(&mut self, departure: Departure) -> Result<(), NoMemory>
        requires { self.old.last + 1 < 2 ^ 64 }
        ensures err { OnErr result (self.new ≡ self.old) }
        ensures ok { OnOk result (self.new ≡ record self.old {
          list = self.old.list ++ record {
            number = self.old.last + 1;
            wire = departure.wire;
            from = departure.from;
            to = departure.to;
            origin = departure.trail.origin;
            hops = departure.trail.hops;
            age = 0;
            bytes = departure.bytes;
          } ∷ [];
          last = self.old.last + 1;
        }) }
    {
        let since = self.ticks;
        self.put(Carried { departure, since })
    }

    /// A copy of the packet with a number is sent, where that one is under way: it has the next number, and is as old. After
    /// `NoMemory` nothing has changed.
    pub fn repeat(&mut self, alloc: Global, number: u64) -> Result<Option<u64>, NoMemory>
        requires { self.old.last + 1 < 2 ^ 64 }
        ensures err { OnErr result (self.new ≡ self.old) }
        ensures number { IfOk result (λ copy. copy ≡ option_map (λ packet. self.old.last + 1) (find (is_numbered number) self.old.list)) }
        ensures ok { OnOk result (self.new ≡ with_copy_of (find (is_numbered number) self.old.list) self.old) }
    {
        let Some(carried) = self.by_number.get(number) else {
            return Ok(None);
        };
        let copy = carried.copy(alloc)?;
        self.put(copy)?;
        Ok(Some(self.by_number.last()))
    }

    // One more packet is under way, under the next number.
    fn put(&mut self, carried: Carried) -> Result<(), NoMemory>
        requires number { self.old.last + 1 < 2 ^ 64 }
        requires sent { carried.since ≤ self.old.ticks }
        requires young { self.old.ticks < carried.since + 64 }
        ensures err { OnErr result (self.new ≡ self.old) }
        ensures ok { OnOk result (self.new ≡ record self.old {
          list = self.old.list ++ kept_packet self.old.ticks (self.old.last + 1, carried) ∷ [];
          last = self.old.last + 1;
        }) }
    {
        let sending = Sending {
            since: carried.since,
            number: self.by_number.last() + 1,
        };
        mark_older(&mut self.older, sending, self.ticks)?;
        match self.by_number.push(carried) {
            Ok(()) => Ok(()),
            Err(_) => {
                self.older.remove(&sending);
                Err(NoMemory)
            }
        }
    }
}

// A packet that was sent before the last tick is older than others with lower numbers may be.
fn mark_older(older: &mut BTreeSet<Sending>, sending: Sending, ticks: u64) -> Result<(), NoMemory>
    ensures marked { OnOk result ((s : Sending) → has_sending older.new.keys s ≡ cond (nat_lt sending.since ticks && is_at (sending_order sending) s) true (has_sending older.old.keys s)) }
    ensures err { OnErr result (older.new ≡ older.old) }
{
    if sending.since < ticks {
        older.insert(sending)?;
    }
    Ok(())
}
