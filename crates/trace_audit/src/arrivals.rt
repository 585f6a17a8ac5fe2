//! The frames that entered, found by their numbers.
ghost use Rattle.std.specs.Prelude.{◌≡◌, ◌==◌, ◌≤◌, ◌<◌, ◌+◌, ◌++◌, ◌∷◌, [], ℕ, List, Some, false, length, take, drop, suc, is_some, OnOk, true, if◌then◌else◌};
ghost use Rattle.seen_state.specs.Numbered.{value_at};
ghost use Rattle.trace_audit.specs.Arrivals.{ArePlaced, ArePlacedInside, Entered, TellsArrivals, entered_of, first_at, first_under};
ghost use Rattle.trace_audit.specs.Arrivals.{has_come, has_other, is_first, parts_of, with_came};

use crate::entered_frame::{EnteredFrame, FrameParts, joined};
use net_base::NoMemory;
use seen_state::Numbered;
use std::alloc::Global;
use std::collections::BTreeSet;
use std::marker::Model;

/// The first frame that entered under a number: its service, and where its octets stand among those of all such frames.
#[derive(Clone, Copy)]
pub struct First {
    pub number: u64,
    pub at: u64,
    pub len: u32,
    pub service: u16,
}

/// The frames that entered. The first one under a number is found at the place that its number tells, or in logarithmic time where
/// numbers do not rise one by one; others that a report gives the same number stand in an order. What is compared is what was found: no
/// choice of octets makes a frame dear to find. The octets of the first ones stand one behind the other, so that a frame costs few more.
#[derive(Drop)]
pub struct Arrivals {
    places: Numbered<u64>,
    firsts: Vec<First>,
    octets: Vec<u8>,
    others: BTreeSet<EnteredFrame>,
}

impl Model for Arrivals {
    ghost use Rattle.std.specs.Prelude.{length};
    ghost use Rattle.trace_audit.specs.Arrivals.{ArrivalLists, ArePlacedInside};

    ghost Value = { ArrivalLists };

    ghost view = { λ a. record { places = a.places; firsts = a.firsts.items; octets = a.octets.items; others = a.others.keys } };

    ghost invariant = { λ a. ArePlacedInside a.places a.firsts.items (length a.octets.items) };
}

impl Arrivals {
    /// No frame entered.
    #[tactic(auto, using(crate::proofs::ArrivalLemmas::none_placed, crate::proofs::ArrivalLemmas::none_arrived))]
    pub fn new(alloc: Global) -> Arrivals
        ensures { TellsArrivals result [] }
    {
        Arrivals {
            places: Numbered::new(alloc),
            firsts: Vec::new(alloc),
            octets: Vec::new(alloc),
            others: BTreeSet::new(alloc),
        }
    }

    // The first frame that entered under a number.
    fn first(&self, number: u64) -> Option<First>
        ensures { result ≡ first_at self.now.firsts (value_at self.now.places number) }
    {
        match self.places.get(number) {
            Some(place) => self.firsts.get(place as usize).copied(),
            None => None,
        }
    }

    // The octets of the first frame under a number.
    #[tactic(auto, using(crate::proofs::ArrivalLemmas::at_within, crate::proofs::ArrivalLemmas::len_within))]
    fn frame(&self, number: u64, first: First) -> &[u8]
        requires { first_at self.now.firsts (value_at self.now.places number) ≡ Some first }
        ensures { result.now ≡ take first.len (drop first.at self.now.octets) }
    {
        let (_, rest) = self.octets.as_slice().split_at(first.at as usize);
        let (frame, _) = rest.split_at(first.len as usize);
        frame
    }

    /// Whether this frame entered under its number, in its service.
    pub fn has(&self, came: &EnteredFrame) -> bool
        ensures { (known : List Entered) → TellsArrivals self.now known → result ≡ has_come known (entered_of came.now) }
    {
        self.is_first(came) || self.is_other(came)
    }

    // Whether this frame is the first one that entered under its number.
    fn is_first(&self, came: &EnteredFrame) -> bool
        ensures { result ≡ is_first (entered_of came.now) (first_under self.now came.now.number) }
    {
        match self.first(came.number) {
            Some(first) => {
                came.number == first.number
                    && (came.service == first.service
                        && came.frame.as_slice() == self.frame(came.number, first))
            }
            None => false,
        }
    }

    // Whether it is one of the others.
    fn is_other(&self, came: &EnteredFrame) -> bool
        ensures { result ≡ has_other self.now.others (entered_of came.now) }
    {
        self.others.contains(came)
    }

    /// Whether a frame is seen to have entered under its number and in its service, as the first one under that number. No octet is
    /// copied.
    #[tactic(auto, using(crate::proofs::ArrivalLemmas::first_arrived))]
    pub fn shows(&self, frame: FrameParts<'_>) -> bool
        ensures { (known : List Entered) → TellsArrivals self.now known → result ≡ true → has_come known (parts_of frame.entry) ≡ true }
    {
        match self.first(frame.number) {
            Some(first) => {
                first.number == frame.number
                    && first.service == frame.service
                    && are_parts(frame.front, frame.back, self.frame(frame.number, first))
            }
            None => false,
        }
    }

    /// A frame entered.
    pub fn add(&mut self, alloc: Global, frame: FrameParts<'_>) -> Result<(), NoMemory>
        ensures { OnOk result ((known : List Entered) → TellsArrivals self.old known → TellsArrivals self.new (with_came known (parts_of frame.entry))) }
    {
        if self.places.get(frame.number).is_some()
            || (frame.front.len() > 0xffff || frame.back.len() > 0xffff)
        {
            let came = joined(alloc, frame)?;
            self.add_other(came)
        } else {
            self.add_first(frame)
        }
    }

    // A frame entered, the first one under its number.
    fn add_first(&mut self, frame: FrameParts<'_>) -> Result<(), NoMemory>
        requires front { length frame.front.now < 65536 }
        requires back { length frame.back.now < 65536 }
        requires new { is_some (value_at self.old.places frame.number) ≡ false }
        ensures { OnOk result ((known : List Entered) → TellsArrivals self.old known → TellsArrivals self.new (with_came known (parts_of frame.entry))) }
    {
        let place = self.next_place();
        let first = self.next_first(frame);
        self.push_octets(frame.front)?;
        self.push_octets(frame.back)?;
        self.push_first(first)?;
        self.place(frame.number, place)
    }

    // How many first frames there are.
    fn next_place(&self) -> u64
        ensures { result ≡ length self.now.firsts }
    {
        self.firsts.len() as u64
    }

    // A frame of which the octets are to stand behind all others.
    fn next_first(&self, frame: FrameParts<'_>) -> First
        requires front { length frame.front.now < 65536 }
        requires back { length frame.back.now < 65536 }
        ensures number { result.number ≡ frame.entry.number }
        ensures at { result.at ≡ length self.now.octets }
        ensures len { result.len ≡ length frame.entry.front.now + length frame.entry.back.now }
        ensures service { result.service ≡ frame.entry.service }
        ensures inside { ArePlacedInside self.now.places self.now.firsts (length self.now.octets) }
    {
        First {
            number: frame.number,
            at: self.octets.len() as u64,
            len: (frame.front.len() + frame.back.len()) as u32,
            service: frame.service,
        }
    }

    // Octets more, which are none of a frame yet.
    fn push_octets(&mut self, octets: &[u8]) -> Result<(), NoMemory>
        ensures places { self.new.places ≡ self.old.places }
        ensures firsts { self.new.firsts ≡ self.old.firsts }
        ensures octets { OnOk result (self.new.octets ≡ self.old.octets ++ octets.now) }
        ensures others { self.new.others ≡ self.old.others }
    {
        self.octets.extend_from_slice(octets)?;
        Ok(())
    }

    // A frame more, which no number names yet.
    fn push_first(&mut self, first: First) -> Result<(), NoMemory>
        requires { first.at + first.len ≤ length self.old.octets }
        ensures places { self.new.places ≡ self.old.places }
        ensures firsts { OnOk result (self.new.firsts ≡ self.old.firsts ++ first ∷ []) }
        ensures octets { self.new.octets ≡ self.old.octets }
        ensures others { self.new.others ≡ self.old.others }
    {
        self.firsts.push(first)?;
        Ok(())
    }

    // A number names the last frame.
    #[tactic(auto, using(crate::proofs::ArrivalLemmas::number_placed, crate::proofs::ArrivalLemmas::number_kept))]
    fn place(&mut self, number: u64, place: u64) -> Result<(), NoMemory>
        requires placed { ArePlaced self.old.places place }
        requires last { length self.old.firsts ≡ suc place }
        ensures places { OnOk result ((n : ℕ) → value_at self.new.places n ≡ (if n == number then Some place else value_at self.old.places n)) }
        ensures firsts { self.new.firsts ≡ self.old.firsts }
        ensures octets { self.new.octets ≡ self.old.octets }
        ensures others { self.new.others ≡ self.old.others }
    {
        self.places.put(number, place)
    }

    // A frame entered under a number that another one has.
    fn add_other(&mut self, came: EnteredFrame) -> Result<(), NoMemory>
        ensures { OnOk result ((known : List Entered) → TellsArrivals self.old known → TellsArrivals self.new (with_came known (entered_of came))) }
    {
        self.others.insert(came)?;
        Ok(())
    }
}

// Whether a frame is seen to have these two parts.
#[tactic(auto, using(crate::proofs::ArrivalLemmas::parts_joined))]
fn are_parts(front: &[u8], back: &[u8], frame: &[u8]) -> bool
    ensures { result ≡ true → frame.now ≡ front.now ++ back.now }
{
    if frame.len() < front.len() {
        return false;
    }
    let (first, last) = frame.split_at(front.len());
    first == front && last == back
}
