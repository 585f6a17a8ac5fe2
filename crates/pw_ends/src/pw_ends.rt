//! The pseudowire ends of an edge.
ghost use Rattle.std.specs.Prelude.{◌≡◌, ◌≤◌, ◌<◌, ◌==◌, ◌↔◌, ℕ, List, Some, None, [], true, length, map, position, replicate, slice_get, is_some, option_and_then, option_map, false, IfOk, IfSome};
ghost use Rattle.std.specs.List.{find, list_any};
ghost use Rattle.net_base.specs.plan.Accepted.{IsChecked};
ghost use Rattle.label_space.specs.{declared.kept.Kept.{Kept}, Kept.{without}};
ghost use Rattle.label_space.specs.Labels.{meeting_neighbour, next_after, number_to_give, numbers_end, opened_space, owner_of, ticking};
ghost use Rattle.pw_signalling.specs.{AnyEnd.{end_of}, End.{fresh}, Laws.{own_label}};
ghost use Rattle.pw_signalling.specs.Rows.{advertised, bound, group_unbound, lost, withdrawn};
ghost use Rattle.edge_model.specs.EndPlaces.{end_places, is_at, is_end_of_wire, is_named, is_of_wire};
ghost use Rattle.edge_model.specs.{Labels.{keeps_lost, keeps_one, keeps_owned, left_label, owners_of}, Packet.{advertises_label}};
ghost use Rattle.edge_model.specs.State.{first_label};
ghost use Rattle.pw_ends.specs.Changes.{changed, changed_each, changed_in, keeps_changed, keeps_meant};
ghost use Rattle.pw_ends.specs.{Marks.{is_marked}, Kept.{AreApart, IsOwner, freed_one, segment_of}, Owned.{without_owned_one}};
ghost use Rattle.pw_ends.specs.Ends.{CanHold, HasKind, Holds, IsIdle, changed_at, changed_beside, end_in, end_there, owns_label, place_of, renewed_of, seen_ends};

use crate::end_change::EndChange;
use crate::end_slots::{advertise_at, bind_at, change_at, idle_ends, make_idle, own_label_at};
use crate::owned_labels::OwnedLabels;
use crate::peer_marks::PeerMarks;
use crate::place_list::PlaceList;
use crate::which_ends::WhichEnds;
use edge_model::EndPlace;
use label_space::LabelSpace;
use net_base::{EdgeId, Label, NoMemory, Plan, SegKey, WireId};
use pw_signalling::{Binding, PwEnd, Told};
use std::alloc::Global;
use std::marker::Model;

/// The pseudowire ends of one edge by slots, in the order of the plan's wires and of the segments of each, and the labels
/// that they own (RFC 8077 section 6, RFC 5036 section 3.5.7). A slot is a place in that order, counted from 0. All memory
/// is taken where they are opened. Contracts see lists, and by `seen_ends` a map from wires and neighbours.
#[derive(Drop)]
pub struct PwEnds {
    places: PlaceList,
    ends: Vec<PwEnd>,
    labels: LabelSpace,
    owned: OwnedLabels,
    // Of the ends beside a neighbour without a mark nothing was told, so that a session that is lost again takes no walk over them.
    marks: PeerMarks,
}

impl Model for PwEnds {
    ghost use Rattle.std.specs.Prelude.{map};
    ghost use Rattle.pw_signalling.specs.AnyEnd.{end_of};
    ghost use Rattle.pw_ends.specs.{Ends.{EndLists}, Kept.{AreMarked}, Marks.{is_marked}};

    ghost Value = { EndLists };

    ghost view = { λ e. record { places = e.places; ends = map end_of e.ends.items; labels = e.labels } };

    ghost invariant = { λ e. AreMarked e.places (map end_of e.ends.items) e.labels e.owned (is_marked e.marks) };
}

impl PwEnds {
    /// The ends of an edge of the plan, all idle and none of them declined, with a label space that begins at the edge's
    /// first label.
    pub fn open(alloc: Global, plan: &Plan, me: EdgeId) -> Result<PwEnds, NoMemory>
        requires checked { IsChecked plan.now }
        requires me { me.0 < length plan.now.edges }
        ensures places { IfOk result (λ ends. ends.places ≡ end_places plan.now me) }
        ensures seen { IfOk result (λ ends. seen_ends ends ≡ (λ wire peer. fresh)) }
        ensures next { IfOk result (λ ends. ends.labels.next ≡ first_label plan.now me) }
        ensures kept { IfOk result (λ ends. ends.labels.kept ≡ []) }
    {
        // What is made first is dropped on every later way, so the places go by value to what makes the rest.
        match PlaceList::open(alloc, plan, me) {
            Ok(places) => PwEnds::over(alloc, places, first_label(plan, me)),
            Err(fault) => Err(fault),
        }
    }

    // The ends of these places, all idle, with a label space that begins at this label.
    #[tactic(auto, using(crate::proofs::SlotLemmas::seen_opened, crate::proofs::KeptLemmas::kept_opened))]
    fn over(alloc: Global, places: PlaceList, first: u32) -> Result<PwEnds, NoMemory>
        requires apart { AreApart places }
        requires few { length places ≤ 5120 }
        requires above { 16 ≤ first }
        requires below { first ≤ numbers_end }
        ensures places { IfOk result (λ ends. ends.places ≡ places) }
        ensures seen { IfOk result (λ ends. seen_ends ends ≡ (λ wire peer. fresh)) }
        ensures next { IfOk result (λ ends. ends.labels.next ≡ first) }
        ensures kept { IfOk result (λ ends. ends.labels.kept ≡ []) }
    {
        match idle_slots(alloc, first, places.len()) {
            Ok(slots) => Ok(PwEnds {
                places,
                ends: slots.ends,
                labels: slots.labels,
                owned: slots.owned,
                marks: PeerMarks::new(),
            }),
            Err(fault) => Err(fault),
        }
    }

    /// How many ends the edge has.
    #[inline(always)]
    pub fn len(&self) -> usize
        ensures count { result ≡ length self.now.places }
    {
        self.places.len()
    }

    /// Whether the edge has no end.
    pub fn is_empty(&self) -> bool
        ensures empty { result ≡ (length self.now.places == 0) }
    {
        self.places.len() == 0
    }

    /// Where the ends are, by slots.
    pub fn places(&self) -> &[EndPlace]
        ensures places { result.now ≡ self.now.places }
    {
        self.places.as_slice()
    }

    /// Where the end of a slot is.
    #[inline(always)]
    pub fn place(&self, slot: usize) -> EndPlace
        requires slot { slot < length self.now.places }
        ensures place { result ≡ place_of self.now slot }
    {
        self.places.place(slot)
    }

    /// The slot of the end beside a peer with this PW ID (RFC 8077 section 6.1), without a walk over the ends; `None` exactly
    /// where there is no such end.
    #[inline(always)]
    #[tactic(auto, using(crate::proofs::IndexLemmas::found_steps))]
    pub fn find(&self, peer: EdgeId, pw_id: u32) -> Option<usize>
        ensures place { option_and_then (slice_get self.now.places) result ≡ find (is_named peer pw_id) self.now.places }
        ensures slot { IfSome result (λ slot. slot < length self.now.places) }
        ensures named { IfSome result (λ slot. find (is_named peer pw_id) self.now.places ≡ Some (place_of self.now slot)) }
        ensures none { result ≡ None → find (is_named peer pw_id) self.now.places ≡ None }
    {
        self.places.find(peer, pw_id)
    }

    /// Whether the wire passes the edge.
    pub fn passes(&self, wire: WireId) -> bool
        ensures passes { result ≡ list_any (is_of_wire wire) self.now.places }
    {
        self.places.passes(wire)
    }

    /// Whether the edge is a terminal edge of the wire.
    pub fn ends_here(&self, wire: WireId) -> bool
        ensures ends { result ≡ list_any (is_end_of_wire wire) self.now.places }
    {
        self.places.ends_here(wire)
    }

    /// The slots of the ends of a wire, found by halves: the first one, and the one behind the last. Where the wire does not pass
    /// the edge, no slot is between them.
    #[inline(always)]
    pub fn slots_of(&self, wire: WireId) -> (usize, usize)
        ensures slots { (slot : ℕ) → slot < length self.now.places → ((place_of self.now slot).wire.0 ≡ wire.0) ↔ (result.0 ≤ slot × slot < result.1) }
    {
        self.places.slots_of(wire)
    }

    /// The slot of the end of a wire of which the edge is a terminal edge; `None` exactly where it is none.
    #[inline(always)]
    pub fn terminal(&self, wire: WireId) -> Option<usize>
        ensures slot { result ≡ position (is_end_of_wire wire) self.now.places }
    {
        self.places.terminal(wire)
    }

    /// The slot of the end of a wire beside a peer, without a walk over the ends of earlier wires; `None` exactly where there is
    /// no such end.
    #[tactic(auto, using(crate::proofs::BesideLemmas::beside_steps))]
    pub fn beside(&self, wire: WireId, peer: EdgeId) -> Option<usize>
        ensures slot { result ≡ position (is_at wire.0 peer.0) self.now.places }
        ensures within { IfSome result (λ slot. slot < length self.now.places) }
        ensures wire { IfSome result (λ slot. (place_of self.now slot).wire ≡ wire) }
        ensures peer { IfSome result (λ slot. (place_of self.now slot).peer ≡ peer) }
        ensures untold { result ≡ None → seen_ends self.now wire.0 peer.0 ≡ fresh }
    {
        self.places.beside(wire, peer)
    }

    /// The end of a slot. Where it advertises, its PW type has 15 bits. A label that it owns is that of its segment and side
    /// in the label space, given for its peer. What it holds can be told on.
    #[inline(always)]
    #[tactic(auto, using(crate::proofs::SlotLemmas::seen_at, crate::proofs::KeptLemmas::slot_within, crate::proofs::KeptLemmas::ends_at, pw_signalling::proofs::EndsLemmas::moves))]
    pub fn end(&self, slot: usize) -> &PwEnd
        requires slot { slot < length self.now.places }
        ensures end { end_of result.now ≡ end_in self.now slot }
        ensures kind { HasKind (end_in self.now slot).local }
        ensures owner { IsOwner self.now.labels.owners (place_of self.now slot) (own_label (end_in self.now slot).local) }
        ensures holds { Holds (place_of self.now slot) (end_in self.now slot).remote }
    {
        &self.ends[slot]
    }

    /// The number that is given next, 16 to 1048576; at 1048576 only numbers that are free again are given.
    pub fn next_label(&self) -> u32
        ensures label { result ≡ self.now.labels.next }
        ensures above { 16 ≤ result }
        ensures below { result ≤ numbers_end }
    {
        self.labels.next_number()
    }

    /// Whether a label is left to be given: the next number, or one that is free again.
    pub fn has_label(&self) -> bool
        ensures left { result ≡ is_some (number_to_give self.now.labels.next self.now.labels.kept) }
    {
        self.labels.has_number()
    }

    /// The labels that the ends own, each with the segment and the side of its end, the number that is given next, and the numbers
    /// that are kept to be given again (RFC 5036 section 3.5.7).
    pub fn labels(&self) -> &LabelSpace
        ensures labels { result.now ≡ self.now.labels }
        ensures owners { (label : ℕ) → owner_of label result.now.owners ≡ option_map (λ place. (segment_of place, place.side)) (find (λ place. owns_label label (end_there self.now place)) self.now.places) }
    {
        // Named so that what always holds of the fields is at hand for the proof.
        let _ = &self.places;
        &self.labels
    }

    /// The slot of the end that owns the label: from its advertisement until the end is idle. `None` exactly where no end
    /// owns it.
    pub fn owner(&self, label: Label) -> Option<usize>
        ensures slot { result ≡ position (owns_label label) self.now.ends }
    {
        self.owner_of(label.number())
    }

    /// The slot of the end that advertises the label with this number: the end that owns it, unless it has withdrawn it. `None`
    /// exactly where no end advertises it.
    pub fn advertiser(&self, number: u32) -> Option<usize>
        ensures place { option_map (place_of self.now) result ≡ find (λ place. advertises_label number (end_there self.now place).local) self.now.places }
        ensures slot { IfSome result (λ slot. slot < length self.now.places) }
    {
        // Named so that what always holds of the fields is at hand for the proof.
        let _ = &self.places;
        match self.owner_of(number) {
            Some(slot) if self.advertises(slot, number) => Some(slot),
            _ => None,
        }
    }

    // Whether the end of a slot advertises the label with this number.
    fn advertises(&self, slot: usize, number: u32) -> bool
        requires { slot < length self.now.places }
        ensures { result ≡ advertises_label number (end_in self.now slot).local }
    {
        matches!(self.end(slot), PwEnd::Advertised(end) if end.label().number() == number)
    }

    // The slot of the end that owns the label with this number.
    fn owner_of(&self, number: u32) -> Option<usize>
        ensures slot { result ≡ position (owns_label number) self.now.ends }
        ensures within { IfSome result (λ slot. slot < length self.now.places) }
    {
        self.owned.slot(number)
    }

    /// A Label Mapping with a label and this content is put for an idle end, which then owns the label (RFC 5036 section 3.5.7):
    /// the next number, or, where that is past the largest label, the least that is free again. The label space has it as the
    /// label of the end's segment and side. `None` exactly where no label is left, and then nothing has changed.
    #[tactic(auto, using(crate::proofs::KeptLemmas::room_for, crate::proofs::KeptLemmas::index_room, crate::proofs::KeptLemmas::index_unowned, crate::proofs::KeptLemmas::slot_within, crate::proofs::KeptLemmas::given_steps, crate::proofs::SlotLemmas::seen_at))]
    pub fn advertise(&mut self, slot: usize, told: &Told) -> Option<Label>
        requires slot { slot < length self.old.places }
        requires idle { IsIdle (end_in self.old slot).local }
        requires kind { told.now.kind ≤ 0x7FFF }
        ensures places { self.new.places ≡ self.old.places }
        ensures none { (result ≡ None) ↔ (number_to_give self.old.labels.next self.old.labels.kept ≡ None) }
        ensures unchanged { result ≡ None → self.new ≡ self.old }
        ensures label { IfSome result (λ label. number_to_give self.old.labels.next self.old.labels.kept ≡ Some label) }
        ensures owner { IfSome result (λ label. owner_of label self.new.labels.owners ≡ Some (segment_of (place_of self.old slot), (place_of self.old slot).side)) }
        ensures next { IfSome result (λ label. self.new.labels.next ≡ next_after self.old.labels.next) }
        ensures kept { IfSome result (λ label. self.new.labels.kept ≡ without label self.old.labels.kept) }
        ensures seen { IfSome result (λ label. seen_ends self.new ≡ changed_at (place_of self.old slot) (advertised label told.now) (seen_ends self.old)) }
    {
        let place = self.places.place(slot);
        let key = SegKey {
            wire: place.wire,
            segment: place.segment,
        };
        let Ok(label) = self.labels.issue(key, place.side, place.peer) else {
            return None;
        };
        advertise_at(&mut self.ends, slot, label, told);
        self.owned.add(label, slot);
        self.marks = self.marks.with(place.peer);
        Some(label)
    }

    /// A Label Withdraw is put where the end advertises (RFC 5036 section 3.5.10). The label stays the end's own until the
    /// peer releases it or the session is lost.
    #[tactic(auto, using(crate::proofs::WaitLemmas::none_steps))]
    pub fn withdraw(&mut self, slot: usize)
        requires slot { slot < length self.old.places }
        ensures places { self.new.places ≡ self.old.places }
        ensures next { self.new.labels.next ≡ self.old.labels.next }
        ensures kept { self.new.labels.kept ≡ self.old.labels.kept }
        ensures seen { seen_ends self.new ≡ changed_at (place_of self.old slot) withdrawn (seen_ends self.old) }
    {
        self.change(slot, &EndChange::Withdrawn);
    }

    /// The ends of a wire are declined no longer.
    #[tactic(auto, using(crate::proofs::SlotLemmas::seen_steps, crate::proofs::WaitLemmas::none_steps))]
    pub fn renew(&mut self, wire: WireId)
        ensures places { self.new.places ≡ self.old.places }
        ensures next { self.new.labels.next ≡ self.old.labels.next }
        ensures kept { self.new.labels.kept ≡ self.old.labels.kept }
        ensures seen { seen_ends self.new ≡ renewed_of wire (seen_ends self.old) }
    {
        self.change_each(WhichEnds::OfWire(wire), &EndChange::Renewed);
    }

    /// A Label Mapping came (RFC 5036 section 3.5.7): its binding replaces the one that was held. What it tells can be told on: its
    /// PW type has 15 bits, its VLAN ID 12, and at a switching point it has passed fewer than three others.
    #[tactic(auto, using(crate::proofs::KeptLemmas::slot_within))]
    pub fn on_mapping(&mut self, slot: usize, binding: &Binding)
        requires slot { slot < length self.old.places }
        requires holds { CanHold (place_of self.old slot) binding.now.told }
        ensures places { self.new.places ≡ self.old.places }
        ensures next { self.new.labels.next ≡ self.old.labels.next }
        ensures kept { self.new.labels.kept ≡ self.old.labels.kept }
        ensures seen { seen_ends self.new ≡ changed_at (place_of self.old slot) (bound binding.now) (seen_ends self.old) }
    {
        let peer = self.places.place(slot).peer;
        bind_at(&mut self.ends, slot, binding);
        self.marks = self.marks.with(peer);
    }

    /// A Label Withdraw of a whole group came from a peer (RFC 8077 section 6.5): each binding of the group goes.
    #[tactic(auto, using(crate::proofs::WaitLemmas::none_steps))]
    pub fn on_group_withdraw(&mut self, peer: EdgeId, group: u32)
        ensures places { self.new.places ≡ self.old.places }
        ensures next { self.new.labels.next ≡ self.old.labels.next }
        ensures kept { self.new.labels.kept ≡ self.old.labels.kept }
        ensures seen { seen_ends self.new ≡ changed_beside peer (group_unbound group) (seen_ends self.old) }
    {
        self.change_beside(peer, &EndChange::GroupUnbound(group));
    }

    /// Each end beside a peer is changed: by what it tells of a whole group, for one. The number of a label that an end owns no
    /// longer waits for the peer, in the order of the ends; the next number stays.
    #[tactic(auto, using(crate::proofs::SlotLemmas::seen_steps, crate::proofs::SlotLemmas::fresh_stays, crate::proofs::WaitLemmas::seen_keeps))]
    pub fn change_beside(&mut self, peer: EdgeId, change: &EndChange)
        ensures places { self.new.places ≡ self.old.places }
        ensures next { self.new.labels.next ≡ self.old.labels.next }
        ensures kept { self.new.labels.kept ≡ keeps_changed peer (changed change.now) (seen_ends self.old) self.old.places self.old.labels.kept }
        ensures seen { seen_ends self.new ≡ changed_beside peer (changed change.now) (seen_ends self.old) }
    {
        self.change_each(WhichEnds::Beside(peer), change);
    }

    /// The session with a peer is lost: each end beside it is idle, not declined, and holds no binding (RFC 5036 section 3.5.1.1),
    /// and the number of its label waits for the peer, in the order of the ends. Where nothing was told since then it takes no walk
    /// over the ends.
    #[tactic(auto, using(crate::proofs::SlotLemmas::seen_steps, crate::proofs::WaitLemmas::seen_loses))]
    pub fn lose(&mut self, peer: EdgeId)
        ensures places { self.new.places ≡ self.old.places }
        ensures next { self.new.labels.next ≡ self.old.labels.next }
        ensures kept { self.new.labels.kept ≡ keeps_lost peer (seen_ends self.old) self.old.places self.old.labels.kept }
        ensures seen { seen_ends self.new ≡ changed_beside peer lost (seen_ends self.old) }
    {
        if self.is_untold(peer) {
            return;
        }
        self.change_each(WhichEnds::Beside(peer), &EndChange::Lost);
        self.marks = self.marks.without(peer);
    }

    /// Whether it is known, without a walk over the ends, that nothing was told of any end beside a peer: to lose its session
    /// changes none of them, and none of them owns a label whose number would wait. So it is before the first change of such an end,
    /// and after each loss until the next one.
    #[inline(always)]
    #[tactic(auto, using(crate::proofs::MarkLemmas::seen_untold))]
    pub fn is_untold(&self, peer: EdgeId) -> bool
        ensures untold { result ≡ true → changed_beside peer lost (seen_ends self.now) ≡ seen_ends self.now }
        ensures kept { result ≡ true → (kept : List Kept) → keeps_lost peer (seen_ends self.now) self.now.places kept ≡ kept }
    {
        // Named so that what always holds of the fields is at hand for the proof.
        let _ = &self.places;
        !self.marks.has(peer)
    }

    /// The same of every peer without one of these marks.
    #[tactic(auto, using(crate::proofs::MarkLemmas::seen_untold))]
    pub fn are_untold_but(&self, others: PeerMarks) -> bool
        ensures untold { result ≡ true → (peer : EdgeId) → is_marked others peer.0 ≡ false → changed_beside peer lost (seen_ends self.now) ≡ seen_ends self.now }
        ensures kept { result ≡ true → (peer : EdgeId) → is_marked others peer.0 ≡ false → (kept : List Kept) → keeps_lost peer (seen_ends self.now) self.now.places kept ≡ kept }
    {
        // Named so that what always holds of the fields is at hand for the proof.
        let _ = &self.places;
        self.marks.is_within(others)
    }

    /// A connection with a peer begins: each number that waits for it begins to rest.
    pub fn met(&mut self, peer: EdgeId)
        ensures ends { self.new ≡ record self.old { labels = meeting_neighbour peer self.old.labels } }
    {
        self.labels.met(peer);
    }

    /// A tick passes: each number that rests does so for a tick more, and at 64 it is free to be given again.
    pub fn tick(&mut self)
        ensures ends { self.new ≡ record self.old { labels = ticking self.old.labels } }
    {
        self.labels.tick();
    }

    /// The edge restarts: each end is as it was opened, and the number of each label that one owned waits for its peer, the least
    /// first where not all can be kept. The next number and those that are kept already stay, so no number is given too early.
    #[tactic(auto, using(crate::proofs::RestartLemmas::restart_steps))]
    pub fn restarted(&mut self)
        ensures places { self.new.places ≡ self.old.places }
        ensures next { self.new.labels.next ≡ self.old.labels.next }
        ensures kept { self.new.labels.kept ≡ keeps_owned (owners_of (seen_ends self.old) self.old.places) self.old.labels.kept }
        ensures seen { seen_ends self.new ≡ (λ wire peer. fresh) }
    {
        self.labels.restarted();
        self.owned.clear();
        make_idle(&mut self.ends);
        self.marks = PeerMarks::new();
    }

    // Each end that is meant is changed.
    #[tactic(auto, using(crate::proofs::SlotLemmas::each_steps, crate::proofs::WaitLemmas::keeps_steps))]
    fn change_each(&mut self, which: WhichEnds, change: &EndChange)
        ensures count { length self.old.ends ≡ length self.old.places }
        ensures apart { AreApart self.old.places }
        ensures places { self.new.places ≡ self.old.places }
        ensures next { self.new.labels.next ≡ self.old.labels.next }
        ensures kept { self.new.labels.kept ≡ keeps_meant which (changed change.now) self.old.places self.old.ends self.old.labels.kept }
        ensures ends { self.new.ends ≡ changed_each which (changed change.now) self.old.places self.old.ends }
    {
        // Named so that what always holds of the fields is at hand for the proof.
        let _ = &self.places;
        for slot in 0..self.len() {
            if which.has(&self.place(slot)) {
                self.change(slot, change);
            }
        }
    }

    /// The end of a slot is changed: by what it tells itself, or by what its peer tells. The number of a label that it owns no longer
    /// waits for its peer, and the next number stays.
    #[tactic(auto, using(crate::proofs::KeptLemmas::freed_next, crate::proofs::KeptLemmas::slot_within))]
    pub fn change(&mut self, slot: usize, change: &EndChange)
        requires slot { slot < length self.old.places }
        ensures places { self.new.places ≡ self.old.places }
        ensures next { self.new.labels.next ≡ self.old.labels.next }
        ensures kept { self.new.labels.kept ≡ keeps_one (left_label (own_label (end_in self.old slot).local) (own_label (changed change.now (end_in self.old slot)).local)) (place_of self.old slot).peer self.old.labels.kept }
        ensures seen { seen_ends self.new ≡ changed_at (place_of self.old slot) (changed change.now) (seen_ends self.old) }
        ensures ends { self.new.ends ≡ changed_in (changed change.now) slot self.old.ends }
    {
        let peer = self.places.place(slot).peer;
        let before = own_label_at(&self.ends, slot);
        change_at(&mut self.ends, slot, change);
        let after = own_label_at(&self.ends, slot);
        free_left(&mut self.labels, &mut self.owned, before, after);
        self.marks = self.marks.with(peer);
    }
}

// Frees a label that was owned and is not any more. Its two ways would meet again in `change`.
fn free_left(
    labels: &mut LabelSpace,
    owned: &mut OwnedLabels,
    before: Option<Label>,
    after: Option<Label>,
)
    ensures labels { labels.new ≡ freed_one (left_label before after) labels.old }
    ensures owned { owned.new ≡ without_owned_one (left_label before after) owned.old }
{
    if let (Some(label), None) = (before, after) {
        labels.free(label);
        owned.remove(label);
    }
}

// What an edge keeps for its slots beside their places.
#[derive(Drop)]
struct IdleSlots {
    ends: Vec<PwEnd>,
    labels: LabelSpace,
    owned: OwnedLabels,
}

// So many slots of which nothing was told, and a label space that begins at this label.
fn idle_slots(alloc: Global, first: u32, count: usize) -> Result<IdleSlots, NoMemory>
    requires few { count ≤ 5120 }
    requires above { 16 ≤ first }
    requires below { first ≤ numbers_end }
    ensures ends { IfOk result (λ slots. map end_of slots.ends.items ≡ replicate count fresh) }
    ensures labels { IfOk result (λ slots. slots.labels ≡ opened_space first count) }
    ensures owned { IfOk result (λ slots. slots.owned ≡ record { room = count; labels = [] }) }
{
    let ends = idle_ends(alloc, count)?;
    let labels = LabelSpace::open(alloc, first, count as u32)?;
    let owned = OwnedLabels::open(alloc, count)?;
    Ok(IdleSlots {
        ends,
        labels,
        owned,
    })
}

// The first label of an edge of the plan.
#[tactic(auto, using(crate::proofs::PlaceLemmas::first_in_range))]
fn first_label(plan: &Plan, me: EdgeId) -> u32
    requires checked { IsChecked plan.now }
    requires me { me.0 < length plan.now.edges }
    ensures label { result ≡ first_label plan.now me }
    ensures above { 16 ≤ result }
    ensures below { result ≤ numbers_end }
{
    plan.edges.as_slice()[me.0 as usize].first_label
}
