//! The label space of an edge.
ghost use Rattle.std.specs.Prelude.{◌≡◌, ◌≤◌, ◌<◌, ◌≢◌, ◌↔◌, ◌⊎◌, ℕ, [], Some, None, is_some, length, IfOk, IfSome, OnErr, IsErr};
ghost use Rattle.std.specs.List.{find};
ghost use Rattle.label_space.specs.Kept.{kept_at, put_by};
ghost use Rattle.label_space.specs.Labels.{AreBelow, AreDistinctLabels, AreUnkept, emptied, freed, freed_of, issued, keeps_each, meeting_neighbour, number_to_give, numbers_end, opened_space, owned_label, owner_of, owns, ticking, with_number_taken, with_owner};
ghost use Rattle.label_space.specs.Slots.{AreSlotsOf};

use crate::kept_labels::KeptLabels;
use crate::search::{find_owner, forget, place_of};
use crate::slots::Slots;
use crate::{NoLabel, Owner};
use indexmap::IndexMap;
use net_base::{EdgeId, Label, NoMemory, SegKey};
use slab::Slab;
use std::alloc::Global;
use std::marker::Model;

/// The labels of an edge: which number is next, which pseudowire end owns which label, and which numbers are kept to be given
/// again. A label is given by downstream unsolicited advertisement (RFC 5036 section 2.6.3), and its end owns it until the label
/// is freed. Contracts see the next number, the most labels that are owned at once, the owners in rising order of their labels,
/// and the kept numbers in rising order.
#[derive(Drop)]
pub struct LabelSpace {
    next: u32,
    room: u32,
    owners: Vec<Owner>,
    slots: Slots,
    // Whether `slots` has what `owners` has; else it is empty.
    asked: bool,
    kept: KeptLabels,
}

impl Model for LabelSpace {
    ghost use Rattle.std.specs.Prelude.{vec_capacity};
    ghost use Rattle.label_space.specs.{Labels.{LabelNumbers, IsHeldSpace}, Slots.{IsLabelIndex}};

    ghost Value = { LabelNumbers };

    ghost view = { λ s. record { next = s.next; room = s.room; owners = s.owners.items; kept = s.kept } };

    ghost invariant = { λ s. IsHeldSpace s.next s.room (vec_capacity s.owners) s.owners.items s.kept × IsLabelIndex s.asked s.slots.slab s.slots.index s.owners.items };
}

impl LabelSpace {
    /// A label space of which no label is owned, no number is kept, and whose first number is `first`, 16 to 1048576. Memory for
    /// `room` owned labels and for all numbers that are ever kept is taken here. After this no call takes memory.
    pub fn open(alloc: Global, first: u32, room: u32) -> Result<LabelSpace, NoMemory>
        requires above { 16 ≤ first }
        requires below { first ≤ numbers_end }
        ensures space { IfOk result (λ space. space ≡ opened_space first room) }
    {
        Ok(LabelSpace {
            next: first,
            room,
            owners: Vec::with_capacity(alloc, room as usize)?,
            slots: Slots {
                slab: Slab::with_capacity(alloc, room as usize)?,
                index: IndexMap::with_capacity(alloc, room as usize)?,
            },
            asked: true,
            kept: KeptLabels::open(alloc)?,
        })
    }

    /// Gives a number to the end of this segment and side, which then owns it: the next number, and the one after it is next; where
    /// the next number is 1048576, the least number that is free. `side` is 0 for the end at the segment's first edge on the path
    /// and 1 for the end at its second edge, and `peer` is the edge at the other side. Fewer than `room` labels are owned. `NoLabel`
    /// comes exactly where the next number is 1048576 and no number is free, and then nothing has changed.
    pub fn issue(&mut self, key: SegKey, side: u8, peer: EdgeId) -> Result<Label, NoLabel>
        requires room { length self.old.owners < self.old.room }
        ensures no_label { IsErr result ↔ (number_to_give self.old.next self.old.kept ≡ None) }
        ensures unchanged { OnErr result (self.new ≡ self.old) }
        ensures label { IfOk result (λ label. number_to_give self.old.next self.old.kept ≡ Some label) }
        ensures owner { IfOk result (λ label. owner_of label self.new.owners ≡ Some (key, side)) }
        ensures space { self.new ≡ issued key side peer self.old }
    {
        let Some(label) = self.take_number() else {
            return Err(NoLabel);
        };
        self.own(label, key, side, peer);
        Ok(label)
    }

    // Takes the number that is to be given, if there is one.
    fn take_number(&mut self) -> Option<Label>
        ensures number { result ≡ number_to_give self.old.next self.old.kept }
        ensures space { self.new ≡ with_number_taken result self.old }
        ensures unowned { IfSome result (λ label. owner_of label self.new.owners ≡ None) }
        ensures unkept { IfSome result (λ label. kept_at label self.new.kept ≡ None) }
        ensures below { IfSome result (λ label. label < self.new.next) }
    {
        let Some(label) = Label::new(self.next) else {
            return self.kept.take_least();
        };
        self.next += 1;
        Some(label)
    }

    // The label is owned.
    fn own(&mut self, label: Label, key: SegKey, side: u8, peer: EdgeId)
        requires room { length self.old.owners < self.old.room }
        requires unowned { owner_of label self.old.owners ≡ None }
        requires unkept { kept_at label self.old.kept ≡ None }
        requires below { label < self.old.next }
        ensures space { self.new ≡ with_owner (record { label = label; key = key; side = side; peer = peer }) self.old }
    {
        self.asked = self.slots.add(
            self.asked,
            self.owners.as_slice(),
            Owner {
                label,
                key,
                side,
                peer,
            },
        );
        let place = place_of(self.owners.as_slice(), label);
        let owner = Owner {
            label,
            key,
            side,
            peer,
        };
        // The memory for it was taken where the label space was opened.
        self.owners.insert(place, owner).unwrap();
    }

    /// The segment and the side of the end that owns the label; `None` exactly where it is not owned. It is for callers outside alone:
    /// the program finds an owner among its own ends.
    #[tactic(auto, using(crate::proofs::LabelLemmas::owner_found))]
    pub fn owner(&self, label: Label) -> Option<(SegKey, u8)>
        ensures owner { result ≡ owner_of label self.now.owners }
        ensures given { AreBelow self.now.next self.now.owners }
        ensures distinct { AreDistinctLabels self.now.owners }
    {
        // Named so that what always holds of the fields is at hand for the proof.
        let _ = &self.next;
        match self.found(label) {
            Some(owner) => Some((owner.key, owner.side)),
            None => None,
        }
    }

    // The owner of the label, if it is owned.
    fn found(&self, label: Label) -> Option<Owner>
        ensures owner { result ≡ find (owns label) self.now.owners }
    {
        if self.asked {
            return self.slots.owner(self.owners.as_slice(), label);
        }
        find_owner(self.owners.as_slice(), label)
    }

    /// Frees the label, where it is owned: no end owns it any more, and its number waits for the peer it was given for. Where as many
    /// numbers are kept as may be it is never given again. All other labels keep their owners.
    #[tactic(auto, using(crate::proofs::HeldLemmas::freed_by))]
    pub fn free(&mut self, label: Label)
        ensures space { self.new ≡ freed label self.old }
        ensures free { owner_of label self.new.owners ≡ None }
        ensures others { (other : ℕ) → other ≢ label → owner_of other self.new.owners ≡ owner_of other self.old.owners }
    {
        if let Some(owner) = self.found(label) {
            self.forget(label, owner);
        }
    }

    // Takes an owner out; its number is kept.
    fn forget(&mut self, label: Label, owner: Owner)
        requires { find (owns label) self.old.owners ≡ Some owner }
        ensures space { self.new ≡ freed_of label (Some owner) self.old }
    {
        self.slots
            .take_out(self.asked, self.owners.as_slice(), label);
        forget(&mut self.owners, label);
        self.kept.keep(label, owner.peer);
    }

    /// A connection with a neighbour begins: each number that waits for it begins to rest, with 0 ticks.
    pub fn met(&mut self, peer: EdgeId)
        ensures space { self.new ≡ meeting_neighbour peer self.old }
    {
        self.kept.met(peer);
    }

    /// A tick passes: each rest is longer by one, and at 64 the number is free.
    pub fn tick(&mut self)
        ensures space { self.new ≡ ticking self.old }
    {
        self.kept.tick();
    }

    /// Frees all labels: each owned number waits for its peer, the least first where not all can be kept. The next number and the
    /// kept ones stay, so no number is given too early after a restart of the edge.
    #[tactic(auto, using(crate::proofs::LabelLemmas::unkept_all))]
    pub fn restarted(&mut self)
        ensures space { self.new ≡ emptied self.old }
        ensures free { (label : ℕ) → owner_of label self.new.owners ≡ None }
    {
        keep_all(&mut self.kept, self.owners.as_slice());
        self.owners.clear();
        self.slots.slab.clear();
        self.slots.index.clear();
        self.asked = true;
    }

    /// The number that is given next, 16 to 1048576; at 1048576 only numbers that are free are given.
    pub fn next_number(&self) -> u32
        ensures number { result ≡ self.now.next }
        ensures above { 16 ≤ result }
        ensures below { result ≤ numbers_end }
    {
        self.next
    }

    /// Whether there is a number to be given: the next one, or where that is 1048576 one that is free.
    pub fn has_number(&self) -> bool
        ensures { result ≡ is_some (number_to_give self.now.next self.now.kept) }
    {
        Label::new(self.next).is_some() || self.kept.has_free()
    }

    /// The owned labels with their owners, each in one slot; or an empty slab, where there was no room for a label. This takes no
    /// memory. It is for callers outside alone, as `owner` is: the program asks for neither.
    pub fn slots(&self) -> &Slab<Owner>
        ensures { AreSlotsOf result.now self.now.owners ⊎ (result.now.slots ≡ []) }
    {
        &self.slots.slab
    }
}

// Each label that is owned waits for its peer, as long as there is room.
fn keep_all(kept: &mut KeptLabels, owners: &[Owner])
    requires distinct { AreDistinctLabels owners.now }
    requires unkept { AreUnkept kept.old owners.now }
    ensures { kept.new ≡ keeps_each owners.now kept.old }
{
    for owner in owners {
        kept.keep(owner.label, owner.peer);
    }
}
