//! A spoke edge chooses among its spokes (RFC 6870, RFC 4762 section 10.2.1).
ghost use Rattle.std.specs.Prelude.{◌≡◌, ◌<◌, ◌≤◌, ◌&&◌, ◌||◌, ℕ, Bool, Some, None, true, false, length, nat_lt, IfOk, IfSome};
ghost use Rattle.net_base.specs.plan.Places.{wire_row};
ghost use Rattle.edge_model.specs.{EndPlaces.{end_places}, Spokes.{choice, choosing, spoke_at, spokes_of}};
ghost use Rattle.edge_model.specs.{State.{put_at, with_chosen}, Wire.{is_own_spoke}};
ghost use Rattle.pw_ends.specs.Ends.{place_of};
ghost use Rattle.provider_edge.specs.{Spokes.{slots_for}, Lists.{Keeps, seen}};
ghost use Rattle.edge_forwarding.specs.Views.{view};
ghost use Rattle.spoke_redundancy.specs.{Choice.{chosen}, Least.{IsLeast, is_least, is_less, is_usable_below}};

use crate::Edge;
use crate::spokes::is_own_spoke;
use net_base::{NoMemory, WireId};
use pw_signalling::EndRole;
use spoke_redundancy::Spoke;
use std::alloc::Global;

impl Edge {
    // The edge chooses for each service.
    pub(crate) fn choose_spokes(&mut self)
        requires working { self.old.stopped ≡ true }
        ensures keeps { Keeps self.old self.new }
        ensures step { seen self.new ≡ choosing self.old.plan (seen self.old) }
    {
        for service in 0..self.count_services() {
            self.choose_spoke(service);
        }
    }

    // The edge chooses for a service. One of which no spoke has a mark has its choice.
    fn choose_spoke(&mut self, service: usize)
        requires working { self.old.stopped ≡ true }
        requires within { service < length self.old.plan.services }
        ensures keeps { Keeps self.old self.new }
        ensures step { seen self.new ≡ with_chosen (put_at (seen self.old).chosen service (choice self.old.plan (seen self.old) (record { 0 = service }))) (seen self.old) }
    {
        if self.passes_by(service) {
            return;
        }
        let chosen = self.choice(service);
        self.set_chosen(service, chosen);
    }

    // How many services the plan has; none is chosen for a service past them, and the edge would choose none:
    // by that the loop of `choose_spokes` has made the whole choice.
    fn count_services(&self) -> usize
        ensures count { result ≡ length self.now.plan.services }
        ensures past { (service : ℕ) → length self.now.plan.services ≤ service → (seen self.now).chosen service ≡ choice self.now.plan (seen self.now) (record { 0 = service }) }
    {
        self.plan.services.len()
    }

    // This spoke, or none, is chosen for a service, as the edge chooses; where it was another one the spokes of the service are marked.
    fn set_chosen(&mut self, service: usize, chosen: Option<WireId>)
        requires working { self.old.stopped ≡ true }
        requires within { service < length self.old.plan.services }
        requires chosen { chosen ≡ choice self.old.plan (seen self.old) (record { 0 = service }) }
        ensures keeps { Keeps self.old self.new }
        ensures step { seen self.new ≡ with_chosen (put_at (seen self.old).chosen service chosen) (seen self.old) }
    {
        if self.has_choice(service, chosen) {
            return;
        }
        let marks = self.marks_of(service);
        self.spokes.choose(service, chosen);
        self.marks = marks;
    }

    // Whether this spoke, or none, is the one that is chosen for a service.
    #[tactic(auto, unfolding(crate::specs::Lists::seen))]
    fn has_choice(&self, service: usize, chosen: Option<WireId>) -> bool
        requires { service < length self.now.plan.services }
        ensures { result ≡ true → (seen self.now).chosen service ≡ chosen }
    {
        self.spokes.has_choice(service, chosen)
    }

    // The wire of the spoke that it chooses for a service: of the usable ones the first with the least priority number. Spokes are asked
    // whether they are usable only where their numbers are small enough, since each that comes up is compared with all others.
    fn choice(&self, service: usize) -> Option<WireId>
        requires { service < length self.now.plan.services }
        ensures { result ≡ choice self.now.plan (seen self.now) (record { 0 = service }) }
    {
        let least = self.least_priority(service);
        match self.place_with(service, least) {
            Some(place) => {
                let slot = self.slots_of(service)[place];
                Some(self.place_at(slot).wire)
            }
            None => None,
        }
    }

    // The least priority number of the usable spokes of a service; `None` where none is usable.
    fn least_priority(&self, service: usize) -> Option<u8>
        requires { service < length self.now.plan.services }
        ensures { IsLeast (spokes_of self.now.plan (seen self.now) (record { 0 = service })) result }
    {
        let mut least = None;
        let slots = self.slots_of(service);
        for slot in slots {
            least = self.lesser(least, *slot);
        }
        least
    }

    // The lesser one of a priority number and that of the spoke of an end, if it is usable.
    fn lesser(&self, least: Option<u8>, slot: usize) -> Option<u8>
        requires { slot < length self.now.ends.places }
        ensures { (number : ℕ) → (is_less least number || is_usable_below number (spoke_at (seen self.now) (place_of self.now.ends slot))) ≡ is_less result number }
    {
        let priority = self.priority_of(self.place_at(slot).wire);
        if is_at_most(least, priority) || !self.spoke_at(slot).usable {
            return least;
        }
        Some(priority)
    }

    // The place among the spokes of a service of the first usable one of which the priority number is no greater than the least one.
    fn place_with(&self, service: usize, least: Option<u8>) -> Option<usize>
        requires within { service < length self.now.plan.services }
        requires least { IsLeast (spokes_of self.now.plan (seen self.now) (record { 0 = service })) least }
        ensures chosen { result ≡ chosen (spokes_of self.now.plan (seen self.now) (record { 0 = service })) }
        ensures place { IfSome result (λ place. place < length (slots_for self.now.plan self.now.me self.now.ends.places service)) }
    {
        let slots = self.slots_of(service);
        for (place, slot) in slots.iter().enumerate() {
            if self.has_least(least, *slot) {
                return Some(place);
            }
        }
        None
    }

    // Whether the spoke of an end is usable, and its priority number no greater than the least one.
    fn has_least(&self, least: Option<u8>, slot: usize) -> bool
        requires { slot < length self.now.ends.places }
        ensures { result ≡ is_least least (spoke_at (seen self.now) (place_of self.now.ends slot)) }
    {
        let spoke = self.spoke_at(slot);
        match least {
            Some(priority) => spoke.priority <= priority && spoke.usable,
            None => spoke.usable,
        }
    }

    // The slots of its ends of the spokes of a service.
    pub(crate) fn slots_of(&self, service: usize) -> &[usize]
        requires { service < length self.now.plan.services }
        ensures slots { result.now ≡ slots_for self.now.plan self.now.me self.now.ends.places service }
        ensures places { self.now.ends.places ≡ end_places self.now.plan self.now.me }
    {
        self.spokes.slots(service)
    }

    // The spoke of an end as the choice sees it: it can be used where the end would forward if its spoke were the chosen one.
    fn spoke_at(&self, slot: usize) -> Spoke
        requires { slot < length self.now.ends.places }
        ensures { result ≡ spoke_at (seen self.now) (place_of self.now.ends slot) }
    {
        let place = self.place_at(slot);
        let bits = self.bits_of(place.wire);
        let down = self.end_in(slot).why_down(EndRole::Chosen, bits);
        Spoke {
            priority: self.priority_of(place.wire),
            usable: down.is_none(),
        }
    }

    // Whether the wire is a spoke that starts at the edge.
    pub(crate) fn is_own_spoke(&self, wire: WireId) -> bool
        ensures own { result ≡ is_own_spoke self.now.me (wire_row self.now.plan wire) }
        ensures within { result ≡ true → wire.0 < length self.now.plan.wires }
    {
        match self.plan.wires.get(wire.0 as usize) {
            Some(row) => is_own_spoke(row, self.me),
            None => false,
        }
    }

    // The wires of the spokes that are chosen, by services.
    #[tactic(auto, unfolding(crate::specs::Lists::seen))]
    pub(crate) fn all_chosen(&self, alloc: Global) -> Result<Vec<Option<WireId>>, NoMemory>
        ensures { IfOk result (λ chosen. view None chosen.items ≡ (seen self.now).chosen) }
    {
        self.spokes.all_chosen(alloc)
    }

    // Whether these wires are the ones that are chosen, by services.
    #[tactic(auto, unfolding(crate::specs::Lists::seen))]
    pub(crate) fn has_chosen(&self, chosen: &[Option<WireId>]) -> bool
        ensures { result ≡ true → view None chosen.now ≡ (seen self.now).chosen }
    {
        self.spokes.are_chosen(chosen)
    }
}

// Whether a least number is known that is no greater than this one.
#[tactic(auto, using(crate::proofs::SpokeLemmas::less_by, crate::proofs::SpokeLemmas::less_before))]
fn is_at_most(least: Option<u8>, priority: u8) -> bool
    ensures passes { result ≡ true → (number : ℕ) (usable : Bool) → (is_less least number || (usable && nat_lt priority number)) ≡ is_less least number }
    ensures less { result ≡ false → (number : ℕ) → (is_less least number || nat_lt priority number) ≡ nat_lt priority number }
{
    match least {
        Some(number) => number <= priority,
        None => false,
    }
}
