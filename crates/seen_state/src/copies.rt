//! The packets under way.
ghost use Rattle.std.specs.Prelude.{◌≡◌, ◌<◌, ◌≤◌, ◌+◌, ◌-◌, ◌++◌, ◌∷◌, ◌==◌, ◌^◌, ℕ, [], Some, IfOk, OnOk, List, if◌then◌else◌};
ghost use Rattle.seen_network.specs.Once.{has_seen, names_seen};
ghost use Rattle.seen_network.specs.Seen.{Seen, SeenCopy, copy_comes, happened, origin_among, repeats, told_by_itself, without_copy};
ghost use Rattle.seen_state.specs.Copies.{TellsPackets, copies_of, count_in, origin_under};

use crate::numbered::Numbered;
use net_base::{Entry, Event, NoMemory};
use std::alloc::Global;
use std::marker::Model;

/// The packets under way: of each by its number the frame that it carries a copy of, and how many copies of each frame there are. One
/// is found, taken out and added at the place that its number tells, or in logarithmic time where numbers do not rise one by one.
#[derive(Drop)]
pub struct Copies {
    origins: Numbered<u64>,
    counts: Numbered<u64>,
    comings: u64,
}

impl Model for Copies {
    ghost use Rattle.seen_state.specs.Copies.{AreFew, CopyMaps};

    ghost Value = { CopyMaps };

    ghost view = { λ c. record { origins = c.origins; counts = c.counts; comings = c.comings } };

    ghost invariant = { λ c. AreFew (record { origins = c.origins; counts = c.counts; comings = c.comings }) };
}

impl Copies {
    /// No packet is under way.
    #[tactic(auto, using(crate::proofs::CopyLemmas::none_few, crate::proofs::CopyLemmas::none_told))]
    pub fn new(alloc: Global) -> Copies
        ensures told { TellsPackets result [] }
        ensures comings { result.comings ≡ 0 }
    {
        Copies {
            origins: Numbered::new(alloc),
            counts: Numbered::new(alloc),
            comings: 0,
        }
    }

    /// How many packets have come so far.
    pub fn comings(&self) -> u64
        ensures { result ≡ self.now.comings }
    {
        self.comings
    }

    /// The frame that the packet with a number carries a copy of, where it is under way.
    pub fn origin(&self, number: u64) -> Option<u64>
        ensures { result ≡ origin_under self.now number }
    {
        self.origins.get(number)
    }

    /// How many copies of a frame are under way.
    pub fn count(&self, origin: u64) -> u64
        ensures count { result ≡ count_in self.now.counts origin }
        ensures few { result ≤ self.now.comings }
    {
        match self.counts.get(origin) {
            Some(count) => count,
            None => 0,
        }
    }

    /// A packet goes, where it is under way; answers the frame that it carried a copy of.
    pub fn go(&mut self, number: u64) -> Result<Option<u64>, NoMemory>
        ensures origin { IfOk result (λ origin. origin ≡ origin_under self.old number) }
        ensures comings { self.new.comings ≡ self.old.comings }
        ensures told { OnOk result ((copies : List SeenCopy) → TellsPackets self.old copies → TellsPackets self.new (without_copy number copies)) }
    {
        let Some(origin) = self.origins.take(number) else {
            return Ok(None);
        };
        self.count_down(origin)?;
        Ok(Some(origin))
    }

    // One copy of a frame fewer, where there is one.
    #[tactic(auto, using(crate::proofs::CopyLemmas::counts_down))]
    fn count_down(&mut self, origin: u64) -> Result<(), NoMemory>
        ensures origins { self.new.origins ≡ self.old.origins }
        ensures comings { self.new.comings ≡ self.old.comings }
        ensures counts { OnOk result ((other : ℕ) → count_in self.new.counts other ≡ count_in self.old.counts other - (if other == origin then 1 else 0)) }
    {
        let count = self.count(origin);
        if count <= 1 {
            self.counts.take(origin);
            return Ok(());
        }
        match self.counts.put(origin, count - 1) {
            Ok(()) => Ok(()),
            Err(NoMemory) => Err(NoMemory),
        }
    }

    /// A packet comes, and takes the place of one with its number; answers the frame that that one carried a copy of.
    pub fn come(&mut self, number: u64, origin: u64) -> Result<Option<u64>, NoMemory>
        requires { self.old.comings < 2 ^ 63 }
        ensures gone { IfOk result (λ gone. gone ≡ origin_under self.old number) }
        ensures comings { OnOk result (self.new.comings ≡ self.old.comings + 1) }
        ensures told { OnOk result ((copies : List SeenCopy) → TellsPackets self.old copies → TellsPackets self.new (without_copy number copies ++ record { number = number; origin = origin } ∷ [])) }
    {
        let gone = self.go(number)?;
        self.count_up(origin)?;
        self.put(number, origin)?;
        Ok(gone)
    }

    // The packet with a number carries a copy of a frame from now on.
    fn put(&mut self, number: u64, origin: u64) -> Result<(), NoMemory>
        ensures counts { self.new.counts ≡ self.old.counts }
        ensures comings { self.new.comings ≡ self.old.comings }
        ensures origins { OnOk result ((n : ℕ) → origin_under self.new n ≡ (if n == number then Some origin else origin_under self.old n)) }
    {
        match self.origins.put(number, origin) {
            Ok(()) => Ok(()),
            Err(NoMemory) => Err(NoMemory),
        }
    }

    // One copy of a frame more.
    #[tactic(auto, using(crate::proofs::CopyLemmas::counts_up))]
    fn count_up(&mut self, origin: u64) -> Result<(), NoMemory>
        requires { self.old.comings < 2 ^ 63 }
        ensures origins { self.new.origins ≡ self.old.origins }
        ensures comings { self.new.comings ≡ self.old.comings + 1 }
        ensures counts { OnOk result ((other : ℕ) → count_in self.new.counts other ≡ count_in self.old.counts other + (if other == origin then 1 else 0)) }
    {
        let count = self.count(origin);
        self.comings += 1;
        match self.counts.put(origin, count + 1) {
            Ok(()) => Ok(()),
            Err(NoMemory) => Err(NoMemory),
        }
    }

    /// An event applied.
    #[tactic(auto, unfolding(seen_network::specs::Seen::with_copies, seen_network::specs::Seen::with_octets, seen_network::specs::Seen::with_on, seen_network::specs::Seen::with_rest, seen_network::specs::Seen::with_standing, seen_network::specs::Seen::without_edge))]
    pub fn happen(&mut self, event: &Event) -> Result<(), NoMemory>
        ensures comings { self.new.comings ≡ self.old.comings }
        ensures told { OnOk result ((seen : Seen) → TellsPackets self.old seen.under_way → TellsPackets self.new (happened event.now seen).under_way) }
    {
        match *event {
            Event::Arrive { packet } => self.leave(packet),
            Event::Discard { packet } => self.leave(packet),
            Event::Connect { .. } => Ok(()),
            Event::Deliver { .. } => Ok(()),
            Event::Lose { .. } => Ok(()),
            Event::Restart { .. } => Ok(()),
            Event::Circuit { .. } => Ok(()),
            Event::Tick => Ok(()),
            Event::Frame { .. } => Ok(()),
            Event::Again { .. } => Ok(()),
            Event::Wire { .. } => Ok(()),
            Event::Status { .. } => Ok(()),
            Event::Priority { .. } => Ok(()),
            Event::Ping { .. } => Ok(()),
        }
    }

    // A packet goes, where it is under way.
    fn leave(&mut self, number: u64) -> Result<(), NoMemory>
        ensures comings { self.new.comings ≡ self.old.comings }
        ensures told { OnOk result ((copies : List SeenCopy) → TellsPackets self.old copies → TellsPackets self.new (without_copy number copies)) }
    {
        match self.go(number) {
            Ok(_) => Ok(()),
            Err(NoMemory) => Err(NoMemory),
        }
    }

    /// An entry is told.
    pub fn tell(&mut self, entry: &Entry) -> Result<(), NoMemory>
        requires { self.old.comings < 2 ^ 63 }
        ensures comings { OnOk result (self.new.comings ≤ self.old.comings + 1) }
        ensures told { OnOk result ((seen : Seen) → TellsPackets self.old seen.under_way → TellsPackets self.new (told_by_itself entry.now seen).under_way) }
    {
        match *entry {
            Entry::Sent { packet, origin, .. } => self.enter(packet, origin),
            Entry::Copied { packet, of } => self.repeat(packet, of),
            Entry::Aged { packet } => self.leave(packet),
            Entry::Said { .. } => Ok(()),
            Entry::Session { .. } => Ok(()),
            Entry::Wire { .. } => Ok(()),
            Entry::Did { .. } => Ok(()),
            Entry::Idle => Ok(()),
            Entry::In { .. } => Ok(()),
            Entry::Left { .. } => Ok(()),
            Entry::Dropped { .. } => Ok(()),
            Entry::Pong { .. } => Ok(()),
        }
    }

    // A packet comes, and takes the place of one with its number.
    #[tactic(auto, unfolding(seen_network::specs::Seen::with_copies))]
    fn enter(&mut self, number: u64, origin: u64) -> Result<(), NoMemory>
        requires { self.old.comings < 2 ^ 63 }
        ensures comings { OnOk result (self.new.comings ≤ self.old.comings + 1) }
        ensures told { OnOk result ((seen : Seen) → TellsPackets self.old seen.under_way → TellsPackets self.new (copy_comes number origin seen).under_way) }
    {
        match self.come(number, origin) {
            Ok(_) => Ok(()),
            Err(NoMemory) => Err(NoMemory),
        }
    }

    // A packet comes that carries what another one carries, where that is under way.
    #[tactic(auto, using(crate::proofs::CopyLemmas::repeated))]
    fn repeat(&mut self, number: u64, of: u64) -> Result<(), NoMemory>
        requires { self.old.comings < 2 ^ 63 }
        ensures comings { OnOk result (self.new.comings ≤ self.old.comings + 1) }
        ensures told { OnOk result ((seen : Seen) → TellsPackets self.old seen.under_way → TellsPackets self.new (repeats number (origin_among of seen.under_way) seen).under_way) }
    {
        match self.origin(of) {
            Some(origin) => self.enter(number, origin),
            None => Ok(()),
        }
    }

    /// Whether some copy of a frame is under way.
    #[tactic(auto, using(crate::proofs::CopyLemmas::seen_some))]
    pub fn has(&self, origin: u64) -> bool
        ensures { (seen : Seen) → TellsPackets self.now seen.under_way → result ≡ has_seen seen origin }
    {
        self.count(origin) != 0
    }

    /// Whether the packet with a number is under way, and carries a copy of a frame.
    pub fn names(&self, origin: u64, number: u64) -> bool
        ensures { (seen : Seen) → TellsPackets self.now seen.under_way → result ≡ names_seen seen origin number }
    {
        match self.origin(number) {
            Some(other) => other == origin,
            None => false,
        }
    }
}
