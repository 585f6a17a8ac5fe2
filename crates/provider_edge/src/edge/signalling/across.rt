//! What a switching point has on the other side of one of its ends, and what it takes of a neighbour (RFC 6073 sections 4 and 7.6).
ghost use Rattle.std.specs.Prelude.{◌≡◌, ◌<◌, ◌≤◌, Some, length, true, false, option_copied, option_map, IfSome};
ghost use Rattle.net_base.specs.{declared.plan.wire_plan.WirePlan.{WirePlan}, plan.Paths.{edge_address, mate}, plan.Places.{wire_row}};
ghost use Rattle.pw_tlvs.specs.Written.{has_vlan};
ghost use Rattle.edge_model.specs.{Across.{end_beyond, held_beyond, held_of}, Signal.{takes_content}};
ghost use Rattle.pw_ends.specs.Ends.{place_of};
ghost use Rattle.provider_edge.specs.Lists.{seen};

use crate::Edge;
use net_base::{Addr, EdgeId};
use pw_signalling::{Binding, Told};
use pw_stitch::accepts;

impl Edge {
    // The neighbour on the other side of the switching point, seen from that of the end of a slot; `None` exactly where the edge
    // is no switching point between two of the wire's edges.
    #[tactic(auto, using(edge_forwarding::proofs::ForwardingLemmas::row_read))]
    pub(crate) fn mate_at(&self, slot: usize) -> Option<EdgeId>
        requires { slot < length self.now.ends.places }
        ensures mate { (row : WirePlan) → wire_row self.now.plan (place_of self.now.ends slot).wire ≡ Some row → result ≡ mate row self.now.me.0 (place_of self.now.ends slot).peer.0 }
        ensures within { (place_of self.now.ends slot).wire.0 < length self.now.plan.wires }
    {
        let place = self.place_at(slot);
        self.plan.wires.as_slice()[place.wire.0 as usize].mate(self.me, place.peer)
    }

    // What is held on the other side of an end.
    pub(crate) fn held_beyond(&self, slot: usize) -> Option<&Binding>
        requires { slot < length self.now.ends.places }
        ensures { option_copied result ≡ held_beyond self.now.plan (seen self.now) (place_of self.now.ends slot) }
    {
        match self.mate_at(slot) {
            Some(mate) => self.held_beside(slot, mate),
            None => None,
        }
    }

    // What is held of a neighbour on the wire of the end of a slot. It can be told on, and at a switching point it has passed fewer
    // than three others.
    pub(crate) fn held_beside(&self, slot: usize, peer: EdgeId) -> Option<&Binding>
        requires { slot < length self.now.ends.places }
        ensures held { option_copied result ≡ held_of (seen self.now) (place_of self.now.ends slot).wire peer.0 }
        ensures kind { IfSome (option_copied result) (λ binding. binding.told.kind ≤ 0x7FFF) }
        ensures vlan { IfSome (option_copied result) (λ binding. has_vlan binding.told.vlan ≡ true) }
        ensures room { (place_of self.now.ends slot).terminal ≡ false → IfSome (option_copied result) (λ binding. length binding.told.points < 3) }
    {
        let wire = self.place_at(slot).wire;
        match self.ends.beside(wire, peer) {
            Some(other) => self.end_in(other).remote(),
            None => None,
        }
    }

    // The slot of the end on the other side of an end.
    pub(crate) fn slot_beyond(&self, slot: usize) -> Option<usize>
        requires { slot < length self.now.ends.places }
        ensures place { option_map (place_of self.now.ends) result ≡ end_beyond self.now.plan self.now.me (place_of self.now.ends slot) }
        ensures slot { IfSome result (λ other. other < length self.now.ends.places) }
    {
        match self.mate_at(slot) {
            Some(mate) => self.ends.beside(self.place_at(slot).wire, mate),
            None => None,
        }
    }

    // Whether the end of a slot takes what it is told: a terminal end takes everything, and a switching point what it accepts.
    pub(crate) fn takes_content(&self, slot: usize, told: &Told) -> bool
        requires { slot < length self.now.ends.places }
        ensures takes { result ≡ takes_content self.now.plan self.now.me (place_of self.now.ends slot) told.now }
        ensures room { result ≡ true → (place_of self.now.ends slot).terminal ≡ false → length told.now.points < 3 }
    {
        if self.place_at(slot).terminal {
            return true;
        }
        match self.address_of(self.me) {
            Some(own) => accepts(own, told),
            None => false,
        }
    }

    // The address of an edge of the plan.
    #[inline(always)]
    pub(crate) fn address_of(&self, edge: EdgeId) -> Option<Addr>
        ensures { result ≡ edge_address self.now.plan edge }
    {
        match self.plan.edges.get(edge.0 as usize) {
            Some(row) => Some(row.address),
            None => None,
        }
    }
}
