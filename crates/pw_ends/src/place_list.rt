//! Where an edge has ends.
ghost use Rattle.std.specs.Prelude.{◌≡◌, ◌≤◌, ◌<◌, ◌+◌, ◌↔◌, ℕ, IfOk, IfSome, drop, length, option_map, position, slice_get, slice_index_or};
ghost use Rattle.std.specs.List.{list_any};
ghost use Rattle.net_base.specs.plan.Accepted.{IsChecked};
ghost use Rattle.hvpls_spokes.specs.Search.{place_if};
ghost use Rattle.edge_model.specs.EndPlaces.{end_places, is_at, is_end_of_wire, is_named, is_of_wire};
ghost use Rattle.pw_ends.specs.{Kept.{AreApart}, Names.{FindsSlots, end_name_of}, Order.{AreEndsInOrder}, Ends.{no_place}};

use crate::plan_places::end_places;
use edge_model::EndPlace;
use indexmap::IndexMap;
use net_base::{EdgeId, List, NoMemory, Plan, WireId};
use std::alloc::Global;
use std::marker::Model;

/// The places of an edge's ends in order, in which the end of a peer and a PW ID, and the ends of a wire, are found without a
/// walk over them. Contracts see the list of the places.
#[derive(Drop)]
pub struct PlaceList {
    list: List<EndPlace>,
    index: IndexMap<(u16, u32), usize>,
}

impl Model for PlaceList {
    ghost use Rattle.std.specs.Prelude.{List as Items};
    ghost use Rattle.edge_model.specs.declared.end_place.EndPlace.{EndPlace as Place};

    ghost Value = { Items Place };

    ghost view = { λ l. l.list };

    ghost use Rattle.pw_ends.specs.{Names.{FindsSlots}, Order.{AreEndsInOrder}};

    ghost invariant = { λ l. FindsSlots l.list l.index.entries × AreEndsInOrder l.list };
}

impl PlaceList {
    /// The places of the ends of an edge.
    #[tactic(auto, using(crate::proofs::PlaceLemmas::places_apart))]
    pub(crate) fn open(alloc: Global, plan: &Plan, me: EdgeId) -> Result<PlaceList, NoMemory>
        requires { IsChecked plan.now }
        ensures places { IfOk result (λ places. places ≡ end_places plan.now me) }
        ensures apart { IfOk result AreApart }
        ensures few { IfOk result (λ places. length places ≤ 5120) }
    {
        let list = end_places(alloc, plan, me)?;
        let index = index_of(alloc, list.as_slice())?;
        Ok(PlaceList { list, index })
    }

    /// How many there are.
    #[inline(always)]
    pub(crate) fn len(&self) -> usize
        ensures { result ≡ length self.now }
    {
        self.list.len()
    }

    /// The places in order.
    pub(crate) fn as_slice(&self) -> &[EndPlace]
        ensures { result.now ≡ self.now }
    {
        self.list.as_slice()
    }

    /// One of them.
    #[inline(always)]
    pub(crate) fn place(&self, slot: usize) -> EndPlace
        requires { slot < length self.now }
        ensures { result ≡ slice_index_or self.now slot no_place }
    {
        self.list.as_slice()[slot]
    }

    /// The first slot of a place that is beside a peer and of a wire with this PW ID.
    #[inline(always)]
    pub(crate) fn find(&self, peer: EdgeId, pw_id: u32) -> Option<usize>
        ensures { result ≡ position (is_named peer pw_id) self.now }
    {
        self.index.get(&(peer.0, pw_id)).copied()
    }

    /// Whether the wire passes the edge.
    #[tactic(auto, using(hvpls_spokes::proofs::SearchLemmas::any_found))]
    pub(crate) fn passes(&self, wire: WireId) -> bool
        ensures { result ≡ list_any (is_of_wire wire) self.now }
    {
        first_of_wire(self.list.as_slice(), wire).is_some()
    }

    /// The first slot of a terminal end of a wire. All its ends are terminal alike.
    pub(crate) fn terminal(&self, wire: WireId) -> Option<usize>
        ensures { result ≡ position (is_end_of_wire wire) self.now }
    {
        let places = self.list.as_slice();
        let slot = count_before(places, wire);
        match places.get(slot) {
            Some(place) if place.wire == wire && place.terminal => Some(slot),
            _ => None,
        }
    }

    /// The slot of the end of a wire beside a peer. The ends of a wire stand beside each other.
    pub(crate) fn beside(&self, wire: WireId, peer: EdgeId) -> Option<usize>
        ensures { result ≡ position (is_at wire.0 peer.0) self.now }
    {
        let places = self.list.as_slice();
        let first = count_before(places, wire);
        let (_, ends) = places.split_at(first);
        match place_beside(ends, wire, peer) {
            Some(place) => Some(first + place),
            None => None,
        }
    }

    /// The slots of the ends of a wire: the first one, and the one behind the last. Where the wire does not pass the edge, no slot is
    /// between them.
    pub(crate) fn slots_of(&self, wire: WireId) -> (usize, usize)
        ensures { (slot : ℕ) → slot < length self.now → ((slice_index_or self.now slot no_place).wire.0 ≡ wire.0) ↔ (result.0 ≤ slot × slot < result.1) }
    {
        let places = self.list.as_slice();
        (count_before(places, wire), count_through(places, wire))
    }

    /// Whether the edge is a terminal edge of the wire.
    #[tactic(auto, using(hvpls_spokes::proofs::SearchLemmas::any_found))]
    pub(crate) fn ends_here(&self, wire: WireId) -> bool
        ensures { result ≡ list_any (is_end_of_wire wire) self.now }
    {
        self.terminal(wire).is_some()
    }
}

// The first slot of an end of a wire. The proof of `passes` takes its clause.
fn first_of_wire(places: &[EndPlace], wire: WireId) -> Option<usize>
    requires { AreEndsInOrder places.now }
    ensures { result ≡ position (is_of_wire wire) places.now }
{
    let slot = count_before(places, wire);
    match places.get(slot) {
        Some(place) if place.wire == wire => Some(slot),
        _ => None,
    }
}

// The first of these ends that is one of a wire beside a peer. A search by a closure is proved where it stands alone.
fn place_beside(ends: &[EndPlace], wire: WireId, peer: EdgeId) -> Option<usize>
    ensures place { result ≡ position (is_at wire.0 peer.0) ends.now }
    ensures within { IfSome result (λ place. place < length ends.now) }
{
    ends.iter()
        .position(|end| wire == end.wire && peer == end.peer)
}

// How many ends are of earlier wires. A search by a closure is proved where it stands alone.
fn count_before(places: &[EndPlace], wire: WireId) -> usize
    requires { AreEndsInOrder places.now }
    ensures wire { position (is_of_wire wire) places.now ≡ place_if (is_of_wire wire) result (slice_get places.now result) }
    ensures terminal { position (is_end_of_wire wire) places.now ≡ place_if (is_end_of_wire wire) result (slice_get places.now result) }
    ensures beside { (peer : ℕ) → position (is_at wire.0 peer) places.now ≡ option_map (λ n. result + n) (position (is_at wire.0 peer) (drop result places.now)) }
    ensures before { (slot : ℕ) → slot < length places.now → (slot < result) ↔ ((slice_index_or places.now slot no_place).wire.0 < wire.0) }
    ensures bound { result ≤ length places.now }
{
    places.partition_point(|place| place.wire.0 < wire.0)
}

// How many ends are of earlier wires or of this one. A search by a closure is proved where it stands alone.
fn count_through(places: &[EndPlace], wire: WireId) -> usize
    requires { AreEndsInOrder places.now }
    ensures through { (slot : ℕ) → slot < length places.now → (slot < result) ↔ ((slice_index_or places.now slot no_place).wire.0 ≤ wire.0) }
    ensures bound { result ≤ length places.now }
{
    places.partition_point(|place| place.wire.0 <= wire.0)
}

// The first slot of each name. A later slot is put in first, and gives way.
fn index_of(alloc: Global, places: &[EndPlace]) -> Result<IndexMap<(u16, u32), usize>, NoMemory>
    ensures { IfOk result (λ index. FindsSlots places.now index.entries) }
{
    let mut index = IndexMap::with_capacity(alloc, places.len())?;
    let mut slot = places.len();
    'placing: while slot > 0 {
        slot -= 1;
        index.insert(name_at(places, slot), slot)?;
    }
    Ok(index)
}

// The peer and the PW ID of a slot.
fn name_at(places: &[EndPlace], slot: usize) -> (u16, u32)
    requires { slot < length places.now }
    ensures { result ≡ end_name_of (slice_index_or places.now slot no_place) }
{
    let place = places[slot];
    (place.peer.0, place.pw_id)
}
