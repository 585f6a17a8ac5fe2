//! The ends that the edge visits as it mends. Each change marks those that it can unsettle: the ends of its wire, those of the wires beside a
//! peer, or the spokes of a service. Where the edge knows no marks it visits each end.
ghost use Rattle.std.specs.{Prelude.{◌≡◌, ◌≤◌, ◌<◌, ℕ, length, true, false, IfSome}, List.{list_all}};
ghost use Rattle.provider_edge.specs.{Marks.{Marked, MarksBeside, MarksEach, MarksWire, is_unmarked}, Lists.{Keeps, seen}};
ghost use Rattle.provider_edge.specs.Spokes.{starts_spoke};
ghost use Rattle.provider_edge.specs.Tidy.{HasChosenFor, IsSettledAt, IsTidy, IsTidyApart, IsTidyBesides, MendsNothing};

use crate::Edge;
use crate::end_marks::EndMarks;
use net_base::{EdgeId, WireId};

impl Edge {
    // These ends have a mark, or each may be unsettled.
    #[inline(always)]
    pub(crate) fn keep_marks(&mut self, marks: Option<EndMarks>)
        requires working { self.old.stopped ≡ true }
        requires tidy { IfSome marks (λ marks. IsTidy self.old.plan (seen self.old) marks) }
        ensures keeps { Keeps self.old self.new }
        ensures step { seen self.new ≡ seen self.old }
    {
        self.marks = marks;
    }

    // Whether it is known that there is nothing to mend.
    #[inline(always)]
    pub(crate) fn is_tidy(&self) -> bool
        ensures { result ≡ true → MendsNothing self.now.plan (seen self.now) }
    {
        // Named so that what always holds of the fields is at hand for the proof.
        let _ = &self.plan;
        match self.marks {
            Some(marks) => marks.is_empty(),
            None => false,
        }
    }

    // The first slot to be visited: no end before it has a mark.
    #[inline(always)]
    pub(crate) fn first_marked(&self) -> usize
        ensures { (slot : ℕ) → slot < result → IsSettledAt self.now.plan (seen self.now) slot }
    {
        // Named so that what always holds of the fields is at hand for the proof.
        let _ = &self.plan;
        match self.marks {
            Some(marks) => marks.first(),
            None => 0,
        }
    }

    // Whether neither the end of this slot nor any later one has a mark.
    #[inline(always)]
    pub(crate) fn is_past(&self, slot: usize) -> bool
        ensures { result ≡ true → (other : ℕ) → slot ≤ other → IsSettledAt self.now.plan (seen self.now) other }
    {
        // Named so that what always holds of the fields is at hand for the proof.
        let _ = &self.plan;
        match self.marks {
            Some(marks) => marks.is_past(slot),
            None => false,
        }
    }

    // Whether no spoke of a service that starts at the edge has a mark.
    pub(crate) fn passes_by(&self, service: usize) -> bool
        requires { service < length self.now.plan.services }
        ensures { result ≡ true → HasChosenFor self.now.plan (seen self.now) service }
    {
        match self.marks {
            Some(marks) => passes_by(marks, self.slots_of(service)),
            None => false,
        }
    }

    // The marks, and those of the ends of a wire: there any may change.
    pub(crate) fn marks_at(&self, wire: WireId) -> Option<EndMarks>
        ensures { IfSome result (λ marks. IsTidyBesides self.now.plan (seen self.now) wire.0 marks) }
    {
        // Named so that what always holds of the fields is at hand for the proof.
        let _ = &self.plan;
        self.marks_with_wire(wire)
    }

    // The marks with those of the ends of a wire. The proof of `marks_at` takes its clause.
    fn marks_with_wire(&self, wire: WireId) -> Option<EndMarks>
        ensures { Marked (MarksWire self.now.ends.places wire.0) self.now.marks result }
    {
        let marks = self.marks?;
        let (first, past) = self.ends.slots_of(wire);
        Some(marks.with(first, past))
    }

    // The marks, and those of the ends of each wire that has an end beside a peer.
    pub(crate) fn marks_beside(&self, marks: Option<EndMarks>, peer: EdgeId) -> Option<EndMarks>
        ensures { Marked (MarksBeside self.now.ends.places peer.0) marks result }
    {
        let mut marks = marks?;
        for slot in 0..self.count_ends() {
            let place = self.place_at(slot);
            if place.peer == peer {
                let (first, past) = self.ends.slots_of(place.wire);
                marks = marks.with(first, past);
            }
        }
        Some(marks)
    }

    // The marks after an event of the session with a peer: those of before, where it stands and is up or not as it was.
    #[inline(always)]
    pub(crate) fn marks_after(
        &self,
        marks: Option<EndMarks>,
        stands: bool,
        peer: EdgeId,
    ) -> Option<EndMarks>
        ensures stood { stands ≡ true → result ≡ marks }
        ensures left { stands ≡ false → Marked (MarksBeside self.now.ends.places peer.0) marks result }
    {
        if stands {
            return marks;
        }
        self.marks_beside(marks, peer)
    }

    // The marks, and those of the ends of the spokes of a service that start at the edge: there any may change.
    pub(crate) fn marks_of(&self, service: usize) -> Option<EndMarks>
        requires { service < length self.now.plan.services }
        ensures { IfSome result (λ marks. IsTidyApart self.now.plan (seen self.now) (starts_spoke self.now.plan self.now.me (record { 0 = service })) marks) }
    {
        // Named so that what always holds of the fields is at hand for the proof.
        let _ = &self.plan;
        self.marks_with_spokes(service)
    }

    // The marks with those of the ends of the spokes of a service that start at the edge. The proof of `marks_of` takes its clause.
    fn marks_with_spokes(&self, service: usize) -> Option<EndMarks>
        requires { service < length self.now.plan.services }
        ensures { Marked (MarksEach self.now.ends.places (starts_spoke self.now.plan self.now.me (record { 0 = service }))) self.now.marks result }
    {
        let mut marks = self.marks?;
        // Named so that it is known how large a slot is.
        let _ends = self.count_ends();
        let slots = self.slots_of(service);
        for slot in slots {
            marks = marks.with(*slot, *slot + 1);
        }
        Some(marks)
    }
}

// Whether none of these slots has a mark. A test by a closure is proved where it stands alone.
fn passes_by(marks: EndMarks, slots: &[usize]) -> bool
    ensures { result ≡ list_all (is_unmarked marks) slots.now }
{
    slots.iter().all(|slot| marks.passes_by(*slot))
}
