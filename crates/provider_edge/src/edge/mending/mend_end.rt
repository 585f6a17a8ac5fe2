//! One end is mended: what it tells follows what it should tell by now (RFC 8077 sections 6 and 6.3).
ghost use Rattle.std.specs.Prelude.{◌≡◌, ◌<◌, List, length, None, true, IfOk, OnOk};
ghost use Rattle.net_base.specs.{declared.outside.link_call.LinkCall.{LinkCall}, plan.Places.{wire_row}};
ghost use Rattle.edge_model.specs.declared.end_place.EndPlace.{EndPlace};
ghost use Rattle.edge_model.specs.Mend.{advertises_wish, forgetting_wire, is_new_choice, mends_choice, mends_end, mends_status, offer_stands, tells_down, wish};
ghost use Rattle.edge_model.specs.{Role.{down_at, is_chosen_wire, role_in}, State.{with_told_down}};
ghost use Rattle.pw_signalling.specs.AnyEnd.{end_of};
ghost use Rattle.pw_ends.specs.Ends.{HasKind, Holds, IsIdle, end_in, place_of};
ghost use Rattle.provider_edge.specs.{Mending.{forgotten_down, mended_down}, AtWork.{SaysBy, Works}, Lists.{Keeps, seen}};
ghost use Rattle.edge_forwarding.specs.Views.{view};
ghost use Rattle.peer_dialogue.specs.Peering.{at_edge};

use crate::Edge;
use crate::edge::packets::stitched::has_told;
use edge_model::{Effect, EndPlace};
use net_base::{Class, Down, Link, List, NoMemory, ServiceId, WireId};
use peer_dialogue::{AtWork, PwMessage};
use pw_ends::{EndChange, role_of};
use pw_signalling::{EndRole, PwEnd, Told};
use pw_stitch::is_same_but_status;

impl Edge {
    // An idle end is advertised, and one that advertises withdraws its label, and puts that, where what it has told no longer stands;
    // answers whether the link did not take a message.
    pub(crate) fn mend_end<L: Link>(
        &mut self,
        slot: usize,
        work: &mut AtWork<'_, L>,
    ) -> Result<bool, NoMemory>
        requires working { self.old.stopped ≡ true }
        requires slot { slot < length self.old.ends.places }
        ensures goes { Works L.calls self.old work.old self.new work.new }
        ensures step { IfOk result (SaysBy L.calls self.old work.old self.new work.new (λ told. mends_end self.old.plan told (place_of self.old.ends slot))) }
    {
        match self.end_in(slot) {
            PwEnd::Idle(end) => {
                if end.is_declined() {
                    return Ok(false);
                }
                self.put_mapping(slot, work)
            }
            PwEnd::Advertised(end) => {
                if self.still_stands(slot, end.told()) {
                    return Ok(false);
                }
                let label = end.label();
                let content = *end.told();
                let place = self.place_at(slot);
                self.change(slot, &EndChange::Withdrawn);
                let message = PwMessage::Withdrawal {
                    pw_id: place.pw_id,
                    label,
                    told: content,
                };
                self.say(place.peer, &message, work)
            }
            PwEnd::Withdrawing(_) => Ok(false),
        }
    }

    // An idle end advertises what it should tell: it takes a label and puts a Label Mapping. Where no label is left it stays idle.
    fn put_mapping<L: Link>(
        &mut self,
        slot: usize,
        work: &mut AtWork<'_, L>,
    ) -> Result<bool, NoMemory>
        requires working { self.old.stopped ≡ true }
        requires slot { slot < length self.old.ends.places }
        requires idle { IsIdle (end_in self.old.ends slot).local }
        ensures goes { Works L.calls self.old work.old self.new work.new }
        ensures step { IfOk result (SaysBy L.calls self.old work.old self.new work.new (λ told. advertises_wish told (place_of self.old.ends slot) (wish self.old.plan (seen self.old) (place_of self.old.ends slot)))) }
    {
        let place = self.place_at(slot);
        if !self.may_tell(&place) {
            return Ok(false);
        }
        let Some(content) = self.wish(slot) else {
            return Ok(false);
        };
        let Some(label) = self.advertise(slot, &content) else {
            return Ok(false);
        };
        let message = PwMessage::Mapping {
            pw_id: place.pw_id,
            label,
            told: content,
        };
        self.say(place.peer, &message, work)
    }

    // What an end has told still stands: a terminal end's offer while it tells anything, and what a switching point passes on while no
    // more than its status has changed (RFC 6073 section 10).
    fn still_stands(&self, slot: usize, content: &Told) -> bool
        requires { slot < length self.now.ends.places }
        ensures { result ≡ offer_stands (place_of self.now.ends slot) content.now (wish self.now.plan (seen self.now) (place_of self.now.ends slot)) }
    {
        let place = self.place_at(slot);
        if place.terminal {
            return self.has_wish(&place, slot);
        }
        match self.wish(slot) {
            Some(wished) => is_same_but_status(content, &wished),
            None => false,
        }
    }

    // A status that has changed is told, where the end's mapping carries one; answers whether the link did not take a message.
    pub(crate) fn mend_status<L: Link>(
        &mut self,
        slot: usize,
        work: &mut AtWork<'_, L>,
    ) -> Result<bool, NoMemory>
        requires working { self.old.stopped ≡ true }
        requires slot { slot < length self.old.ends.places }
        ensures goes { Works L.calls self.old work.old self.new work.new }
        ensures step { IfOk result (SaysBy L.calls self.old work.old self.new work.new (λ told. mends_status self.old.plan told (place_of self.old.ends slot))) }
    {
        match self.end_in(slot) {
            PwEnd::Advertised(end) => {
                let Some(last) = end.told().status else {
                    return Ok(false);
                };
                let status = self.status_to_tell(slot);
                if last.0 == status.0 {
                    return Ok(false);
                }
                let content = *end.told();
                let place = self.place_at(slot);
                self.change(slot, &EndChange::Telling(status));
                let message = PwMessage::Status {
                    pw_id: place.pw_id,
                    status,
                    told: content,
                };
                self.say(place.peer, &message, work)
            }
            PwEnd::Idle(_) => Ok(false),
            PwEnd::Withdrawing(_) => Ok(false),
        }
    }

    // A spoke that was chosen anew withdraws addresses; answers whether the link did not take that. Before this round the edge
    // had chosen these wires, by services.
    pub(crate) fn mend_choice<L: Link>(
        &mut self,
        chosen: &[Option<WireId>],
        slot: usize,
        work: &mut AtWork<'_, L>,
    ) -> Result<bool, NoMemory>
        requires working { self.old.stopped ≡ true }
        requires slot { slot < length self.old.ends.places }
        ensures goes { Works L.calls self.old work.old self.new work.new }
        ensures step { IfOk result (SaysBy L.calls self.old work.old self.new work.new (λ told. mends_choice self.old.plan told (view None chosen.now) (place_of self.old.ends slot))) }
    {
        if !self.is_new_choice(chosen, slot) {
            return Ok(false);
        }
        self.tell_piece(slot, &[], work)
    }

    // Whether the spoke of an end is the one that is chosen now, and was not before.
    fn is_new_choice(&self, chosen: &[Option<WireId>], slot: usize) -> bool
        requires { slot < length self.now.ends.places }
        ensures { result ≡ is_new_choice (view None chosen.now) (seen self.now).chosen (place_of self.now.ends slot).wire (wire_row self.now.plan (place_of self.now.ends slot).wire) }
    {
        let wire = self.place_at(slot).wire;
        match self.plan.wires.get(wire.0 as usize) {
            Some(row) => {
                self.is_chosen(wire, row.service) && !is_wire_of(chosen, wire, row.service)
            }
            None => false,
        }
    }

    // What was learned at a wire whose terminal end does not forward is forgotten; a wire that began to forward, or stopped, is told at
    // its terminal end, where that was not told last.
    pub(crate) fn settle_down(
        &mut self,
        slot: usize,
        out: &mut List<Effect>,
    ) -> Result<(), NoMemory>
        requires working { self.old.stopped ≡ true }
        requires slot { slot < length self.old.ends.places }
        ensures keeps { Keeps self.old self.new }
        ensures step { OnOk result ((calls : List LinkCall)
            → at_edge (seen self.new) calls out.new
            ≡ mended_down self.old.plan (place_of self.old.ends slot) (forgotten_down self.old.plan (place_of self.old.ends slot) (at_edge (seen self.old) calls out.old))) }
    {
        let place = self.place_at(slot);
        if !place.terminal {
            return Ok(());
        }
        let down = self.down_of(slot);
        if down.is_none() {
            return self.tell_by(place.wire, down, out);
        }
        self.forget_wire(place.wire);
        self.tell_by(place.wire, down, out)
    }

    // What was learned at a wire is forgotten, which unsettles no end.
    #[tactic(auto, using(crate::proofs::ForwardLemmas::keeps_forwarding))]
    fn forget_wire(&mut self, wire: WireId)
        requires working { self.old.stopped ≡ true }
        requires within { wire.0 < length self.old.plan.wires }
        ensures keeps { Keeps self.old self.new }
        ensures step { seen self.new ≡ forgetting_wire self.old.plan wire (wire_row self.old.plan wire) (seen self.old) }
    {
        self.forwarding.forget_wire(wire);
    }

    // Why the end of a wire does not forward is told, where that was not told last.
    fn tell_by(
        &mut self,
        wire: WireId,
        down: Option<Down>,
        out: &mut List<Effect>,
    ) -> Result<(), NoMemory>
        requires working { self.old.stopped ≡ true }
        requires within { wire.0 < length self.old.plan.wires }
        ensures keeps { Keeps self.old self.new }
        ensures step { OnOk result ((place : EndPlace) (calls : List LinkCall) → place.wire ≡ wire
            → at_edge (seen self.new) calls out.new ≡ tells_down place down (at_edge (seen self.old) calls out.old)) }
    {
        if self.forwarding.told_last(wire) == down {
            return Ok(());
        }
        self.set_told(wire, down);
        out.push(Effect::Wire { wire, down })
    }

    // This is told of the end of a wire, whose ends are marked.
    #[tactic(auto, using(crate::proofs::ForwardLemmas::keeps_forwarding))]
    fn set_told(&mut self, wire: WireId, down: Option<Down>)
        requires working { self.old.stopped ≡ true }
        requires within { wire.0 < length self.old.plan.wires }
        ensures keeps { Keeps self.old self.new }
        ensures step { seen self.new ≡ with_told_down wire down (seen self.old) }
    {
        let marks = self.marks_at(wire);
        self.forwarding.tell(wire, down);
        self.marks = marks;
    }

    // Where the end of a slot is, at a wire of the plan.
    #[inline(always)]
    #[tactic(auto, using(crate::proofs::ListLemmas::slot_wire))]
    pub(crate) fn place_at(&self, slot: usize) -> EndPlace
        requires { slot < length self.now.ends.places }
        ensures place { result ≡ place_of self.now.ends slot }
        ensures wire { result.wire.0 < length self.now.plan.wires }
    {
        self.ends.place(slot)
    }

    /// The end of a slot: of the place of this number in `places`. Where it advertises, its PW type has 15 bits, and what it holds can be told on.
    #[inline(always)]
    pub fn end_in(&self, slot: usize) -> &PwEnd
        requires { slot < length self.now.ends.places }
        ensures end { end_of result.now ≡ end_in self.now.ends slot }
        ensures kind { HasKind (end_in self.now.ends slot).local }
        ensures holds { Holds (place_of self.now.ends slot) (end_in self.now.ends slot).remote }
    {
        self.ends.end(slot)
    }

    // What the edge's end of a wire is to its service.
    #[tactic(auto, unfolding(crate::specs::Lists::seen))]
    pub(crate) fn role_of(&self, wire: WireId) -> EndRole
        ensures { result ≡ role_in (wire_row self.now.plan wire) (seen self.now).me (seen self.now).chosen wire }
    {
        match self.plan.wires.get(wire.0 as usize) {
            Some(row) => match row.class {
                Class::Mesh => EndRole::Mesh,
                Class::Spoke => role_of(row, self.me, self.is_chosen(wire, row.service)),
            },
            None => EndRole::Mesh,
        }
    }

    // Whether the wire is the one that is chosen for a service.
    #[inline(always)]
    #[tactic(auto, unfolding(crate::specs::Lists::seen))]
    fn is_chosen(&self, wire: WireId, service: ServiceId) -> bool
        ensures { result ≡ is_chosen_wire wire ((seen self.now).chosen service.0) }
    {
        match self.spokes.chosen(service) {
            Some(chosen) => chosen == wire,
            None => false,
        }
    }

    /// Why the end of a slot does not forward; `None` exactly where it forwards (RFC 8077 sections 6 and 6.3).
    #[tactic(auto, unfolding(crate::specs::Lists::seen))]
    pub fn down_of(&self, slot: usize) -> Option<Down>
        requires { slot < length self.now.ends.places }
        ensures { result ≡ down_at self.now.plan (seen self.now) (place_of self.now.ends slot) }
    {
        if !has_told(self.end_in(slot)) {
            return Some(Down::NoLocal);
        }
        let place = self.place_at(slot);
        let role = self.role_of(place.wire);
        self.end_in(slot).why_down(role, self.bits_of(place.wire))
    }
}

// Whether the wire is the one that was chosen for a service.
fn is_wire_of(chosen: &[Option<WireId>], wire: WireId, service: ServiceId) -> bool
    ensures { result ≡ is_chosen_wire wire (view None chosen.now service.0) }
{
    match chosen.get(service.0 as usize) {
        Some(Some(chosen)) => *chosen == wire,
        Some(None) | None => false,
    }
}
