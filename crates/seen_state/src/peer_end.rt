//! An edge's end of a connection.
ghost use Rattle.std.specs.Prelude.{◌≡◌, ◌==◌, ◌&&◌, ◌++◌, length, true, false, take, drop, OnOk, if◌then◌else◌};
ghost use Rattle.seen_network.specs.Seen.{cut};
ghost use Rattle.seen_state.specs.PeerEnd.{CutsFirst, no_end, taken_from_way};

use crate::whole_pdu::whole_pdu;
use net_base::NoMemory;
use std::alloc::Global;
use std::marker::Model;

/// An edge's end of a connection with a peer, with the octets of the peer: those before `cut` are whole PDUs that were taken, those
/// before `taken` were taken, and the others are on their way. They go when all of them are cut off.
#[derive(Drop)]
pub struct PeerEnd {
    stands: bool,
    octets: Vec<u8>,
    cut: usize,
    taken: usize,
}

impl Model for PeerEnd {
    ghost use Rattle.std.specs.Prelude.{◌≤◌, drop, length, take};
    ghost use Rattle.seen_state.specs.PeerEnd.{EndSeen};

    ghost Value = { EndSeen };

    ghost view = { λ e. record { stands = e.stands; rest = drop e.cut (take e.taken e.octets.items); way = drop e.taken e.octets.items } };

    ghost invariant = { λ e. (e.cut ≤ e.taken) × (e.taken ≤ length e.octets.items) };
}

impl PeerEnd {
    /// An end that does not stand. It takes no memory until octets are on their way to it.
    pub fn new(alloc: Global) -> PeerEnd
        ensures { result ≡ no_end }
    {
        PeerEnd {
            stands: false,
            octets: Vec::new(alloc),
            cut: 0,
            taken: 0,
        }
    }

    /// Whether it stands.
    pub fn stands(&self) -> bool
        ensures { result ≡ self.now.stands }
    {
        self.stands
    }

    /// Whether nothing is on its way to it, and it holds nothing.
    pub fn is_drained(&self) -> bool
        ensures { result ≡ (length self.now.way == 0 && length self.now.rest == 0) }
    {
        self.octets.len() - self.taken == 0 && self.taken - self.cut == 0
    }

    /// From now on it stands.
    pub fn stand(&mut self)
        ensures { self.new ≡ record self.old { stands = true } }
    {
        self.stands = true;
    }

    /// It goes, with what was on its way to it and what it held.
    pub fn go(&mut self)
        ensures { self.new ≡ no_end }
    {
        self.stands = false;
        self.octets.clear();
        self.cut = 0;
        self.taken = 0;
    }

    /// Octets are put towards it; where it does not stand they go nowhere.
    pub fn say(&mut self, octets: &[u8]) -> Result<(), NoMemory>
        ensures { OnOk result (self.new ≡ (if self.old.stands then record self.old { way = self.old.way ++ octets.now } else self.old)) }
    {
        if self.stands {
            self.put(octets)
        } else {
            Ok(())
        }
    }

    // Octets come behind those on their way.
    fn put(&mut self, octets: &[u8]) -> Result<(), NoMemory>
        ensures { OnOk result (self.new ≡ record self.old { way = self.old.way ++ octets.now }) }
    {
        match self.octets.extend_from_slice(octets) {
            Ok(()) => Ok(()),
            Err(_) => Err(NoMemory),
        }
    }

    /// The first `count` octets on their way are taken, or all where there are fewer.
    #[tactic(auto, unfolding(crate::specs::PeerEnd::taken_from_way))]
    pub fn take(&mut self, count: usize)
        ensures { self.new ≡ taken_from_way count self.old }
    {
        self.move_on(count);
        self.cut_pdus();
        self.forget();
    }

    // The first `count` octets on their way are held, or all where there are fewer.
    #[tactic(auto, using(crate::proofs::PeerEndLemmas::moved))]
    fn move_on(&mut self, count: usize)
        ensures { self.new ≡ record self.old { rest = self.old.rest ++ take count self.old.way; way = drop count self.old.way } }
    {
        self.taken += count.min(self.octets.len() - self.taken);
    }

    // Whole PDUs are not held any more.
    #[tactic(auto, using(crate::proofs::PeerEndLemmas::cut_steps))]
    fn cut_pdus(&mut self)
        ensures { self.new ≡ record self.old { rest = cut self.old.rest } }
    {
        'cutting: while self.cut_first() {}
    }

    // Where a whole PDU stands in front of what is held, that is not held any more.
    #[tactic(auto, using(crate::proofs::PeerEndLemmas::whole_within, crate::proofs::PeerEndLemmas::past_more))]
    fn cut_first(&mut self) -> bool
        ensures { CutsFirst result self.old self.new }
    {
        let (taken, _) = self.octets.as_slice().split_at(self.taken);
        let (_, held) = taken.split_at(self.cut);
        let length = whole_pdu(held);
        if length == 0 {
            return false;
        }
        self.cut += length;
        true
    }

    // Octets that are all cut off are dropped.
    #[tactic(auto, using(crate::proofs::PeerEndLemmas::none_left))]
    fn forget(&mut self)
        ensures { self.new ≡ self.old }
    {
        if self.cut == self.octets.len() {
            self.octets.clear();
            self.cut = 0;
            self.taken = 0;
        }
    }
}
