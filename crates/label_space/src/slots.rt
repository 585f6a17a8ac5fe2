//! The slots of the owners, and the map from labels to their slots.
ghost use Rattle.std.specs.{Prelude.{◌≡◌, ◌++◌, [], ◌∷◌, None, filter, not}, List.{find}};
ghost use Rattle.label_space.specs.{Labels.{AreDistinctLabels, owner_of, owns}, Slots.{AreLabelSlots, IsLabelIndex}};

use crate::Owner;
use indexmap::IndexMap;
use net_base::Label;
use slab::Slab;

// The owners of labels in slots, and the map from labels to slots. Its calls are told of which owners, since those stand in a list.
#[derive(Drop)]
pub(crate) struct Slots {
    pub(crate) slab: Slab<Owner>,
    pub(crate) index: IndexMap<u32, usize>,
}

impl Slots {
    // The end that owns the label.
    pub(crate) fn owner(&self, owners: &[Owner], label: Label) -> Option<Owner>
        requires { AreLabelSlots self.now.slab self.now.index owners.now }
        ensures { result ≡ find (owns label) owners.now }
    {
        let Some(slot) = self.index.get(&label.number()).copied() else {
            return None;
        };
        self.slab.get(slot).copied()
    }

    // Puts an owner in. Where a map has no room, both are emptied and it answers false.
    fn put(&mut self, owners: &[Owner], owner: Owner) -> bool
        requires step { AreLabelSlots self.old.slab self.old.index owners.now }
        requires absent { owner_of owner.label owners.now ≡ None }
        ensures { IsLabelIndex result self.new.slab self.new.index (owners.now ++ owner ∷ []) }
    {
        if self.slab.len() < self.slab.capacity() && self.index.len() < self.index.capacity() {
            let label = owner.label.number();
            let slot = self.slab.insert_reserved(owner);
            self.index.insert(label, slot).unwrap();
            return true;
        }
        self.slab.clear();
        self.index.clear();
        false
    }

    // Puts all owners in anew, which gives back the places of the map that removals lost. Where there is no room for all, both are
    // emptied and it answers false.
    fn refill(&mut self, owners: &[Owner]) -> bool
        requires { AreDistinctLabels owners.now }
        ensures { IsLabelIndex result self.new.slab self.new.index owners.now }
    {
        self.slab.clear();
        self.index.clear();
        for (i, owner) in owners.iter().enumerate() {
            let (before, _) = owners.split_at(i);
            if !self.put(before, *owner) {
                return false;
            }
        }
        true
    }

    // Puts an owner in, where the map is asked. It answers whether it is asked from then on: where there is no room, even after it was
    // filled anew, it is emptied.
    pub(crate) fn add(&mut self, asked: bool, owners: &[Owner], owner: Owner) -> bool
        requires step { IsLabelIndex asked self.old.slab self.old.index owners.now }
        requires distinct { AreDistinctLabels owners.now }
        requires absent { owner_of owner.label owners.now ≡ None }
        ensures { IsLabelIndex result self.new.slab self.new.index (owners.now ++ owner ∷ []) }
    {
        asked && self.make_room(owners) && self.put(owners, owner)
    }

    // Makes room for one more owner, by filling the map anew where removals used its room up.
    fn make_room(&mut self, owners: &[Owner]) -> bool
        requires step { AreLabelSlots self.old.slab self.old.index owners.now }
        requires distinct { AreDistinctLabels owners.now }
        ensures { IsLabelIndex result self.new.slab self.new.index owners.now }
    {
        if self.index.len() < self.index.capacity() {
            return true;
        }
        self.refill(owners)
    }

    // Takes the owner of the label out, where the map is asked.
    pub(crate) fn take_out(&mut self, asked: bool, owners: &[Owner], label: Label)
        requires { IsLabelIndex asked self.old.slab self.old.index owners.now }
        ensures { IsLabelIndex asked self.new.slab self.new.index (filter (λ o. not (owns label o)) owners.now) }
    {
        if asked {
            self.take_one(owners, label);
        }
    }

    // Takes the owner of the label out.
    fn take_one(&mut self, owners: &[Owner], label: Label)
        requires { AreLabelSlots self.old.slab self.old.index owners.now }
        ensures { AreLabelSlots self.new.slab self.new.index (filter (λ o. not (owns label o)) owners.now) }
    {
        if let Some(slot) = self.index.swap_remove(&label.number()) {
            self.slab.try_remove(slot);
        }
    }
}
