//! The ends of an edge: how one is found, and what becomes of it where the edge tells of it, one call a change.
ghost use Rattle.std.specs.Prelude.{◌≡◌, ◌<◌, ◌≤◌, length, Some, None, option_map, IfSome, true, false};
ghost use Rattle.pw_signalling.specs.Rows.{bound};
ghost use Rattle.pw_ends.specs.{Changes.{changed}, Ends.{IsIdle, end_in, place_of}};
ghost use Rattle.edge_model.specs.{EndPlaces.{end_named}, Labels.{label_to_give}, Mend.{advertising}};
ghost use Rattle.edge_model.specs.{Signal.{end_of_fec, with_end_changed, with_named}, State.{with_ends_beside}};
ghost use Rattle.peer_dialogue.specs.Heard.{CanBeTold};
ghost use Rattle.provider_edge.specs.{Changes.{KeepsLabels, changing}, Lists.{Keeps, seen}};

use crate::Edge;
use net_base::{EdgeId, Label};
use pw_ends::EndChange;
use pw_signalling::{Binding, Told};
use pw_tlvs::PwFec;

impl Edge {
    // The slot of the end beside a peer with this PW ID.
    #[inline(always)]
    pub(crate) fn slot_named(&self, peer: EdgeId, pw_id: u32) -> Option<usize>
        ensures named { option_map (place_of self.now.ends) result ≡ end_named self.now.plan self.now.me peer pw_id }
        ensures slot { IfSome result (λ slot. slot < length self.now.ends.places) }
    {
        self.ends.find(peer, pw_id)
    }

    // The slot of the end that a FEC names, beside the peer that sent it; a FEC without a PW ID names none.
    #[inline(always)]
    pub(crate) fn slot_of(&self, peer: EdgeId, fec: &PwFec) -> Option<usize>
        ensures named { option_map (place_of self.now.ends) result ≡ end_of_fec self.now.plan (seen self.now) peer fec.now }
        ensures slot { IfSome result (λ slot. slot < length self.now.ends.places) }
    {
        match fec.pw_id {
            Some(pw_id) => self.slot_named(peer, pw_id),
            None => None,
        }
    }

    // An idle end advertises the label that is given next with its content; `None` exactly where no label is left. The ends of its wire are marked.
    pub(crate) fn advertise(&mut self, slot: usize, told: &Told) -> Option<Label>
        requires working { self.old.stopped ≡ true }
        requires slot { slot < length self.old.ends.places }
        requires idle { IsIdle (end_in self.old.ends slot).local }
        requires kind { told.now.kind ≤ 0x7FFF }
        ensures keeps { Keeps self.old self.new }
        ensures none { result ≡ None → (label_to_give (seen self.old) ≡ None) × (seen self.new ≡ seen self.old) }
        ensures step { IfSome result (λ label. (label_to_give (seen self.old) ≡ Some label)
            × (seen self.new ≡ advertising (place_of self.old.ends slot) label told.now (seen self.old))) }
    {
        let marks = self.marks_at(self.place_at(slot).wire);
        let label = self.ends.advertise(slot, told);
        self.marks = marks;
        label
    }

    // The end of a slot is bound, which it takes; the ends of its wire are marked.
    pub(crate) fn bind(&mut self, slot: usize, binding: &Binding)
        requires working { self.old.stopped ≡ true }
        requires slot { slot < length self.old.ends.places }
        requires told { CanBeTold binding.now.told }
        requires room { (place_of self.old.ends slot).terminal ≡ false → length binding.now.told.points < 3 }
        ensures keeps { Keeps self.old self.new }
        ensures step { seen self.new ≡ with_end_changed (bound binding.now) (Some (place_of self.old.ends slot)) (seen self.old) }
    {
        let marks = self.marks_at(self.place_at(slot).wire);
        self.ends.on_mapping(slot, binding);
        self.marks = marks;
    }

    // The end of a slot is changed, by what the edge tells or by what its peer does; the label that it owns no longer waits for the
    // peer. The ends of its wire are marked.
    pub(crate) fn change(&mut self, slot: usize, change: &EndChange)
        requires working { self.old.stopped ≡ true }
        requires slot { slot < length self.old.ends.places }
        ensures keeps { Keeps self.old self.new }
        ensures step { seen self.new ≡ changing (changed change.now) (place_of self.old.ends slot) (seen self.old) }
    {
        let marks = self.marks_at(self.place_at(slot).wire);
        self.ends.change(slot, change);
        self.marks = marks;
    }

    // The end that a FEC names is changed, or each one beside the peer where it names a group, by a change after which they own their
    // labels as before; the ends of their wires are marked.
    pub(crate) fn change_named(
        &mut self,
        peer: EdgeId,
        fec: &PwFec,
        one: &EndChange,
        all: &EndChange,
    )
        requires working { self.old.stopped ≡ true }
        requires one { KeepsLabels (changed one.now) }
        requires all { KeepsLabels (changed all.now) }
        ensures keeps { Keeps self.old self.new }
        ensures step { seen self.new ≡ with_named self.old.plan peer fec.now (changed one.now) (changed all.now) fec.now.pw_id (seen self.old) }
    {
        match fec.pw_id {
            Some(pw_id) => {
                if let Some(slot) = self.slot_named(peer, pw_id) {
                    self.change(slot, one);
                }
            }
            None => self.change_beside(peer, all),
        }
    }

    // Each end beside a peer is changed, and owns its label as before; the ends of the wires beside the peer are marked.
    fn change_beside(&mut self, peer: EdgeId, change: &EndChange)
        requires working { self.old.stopped ≡ true }
        requires labels { KeepsLabels (changed change.now) }
        ensures keeps { Keeps self.old self.new }
        ensures step { seen self.new ≡ with_ends_beside peer (changed change.now) (seen self.old) }
    {
        let marks = self.marks_beside(self.marks, peer);
        self.ends.change_beside(peer, change);
        self.marks = marks;
    }
}
