//! Slots by the labels that their ends own.
ghost use Rattle.std.specs.{Prelude.{◌≡◌, ◌≤◌, ◌<◌, [], None, not, filter, length, slice_get, vec_capacity, IfOk}, List.{find, insert}};
ghost use Rattle.hvpls_spokes.specs.Search.{kept_if};
ghost use Rattle.label_space.specs.Kept.{put_by};
ghost use Rattle.pw_ends.specs.declared.owned_labels.OwnedLabel.{OwnedLabel};
ghost use Rattle.pw_ends.specs.Owned.{AreRising, has_label, label_in, slot_of, with_owned_label, without_owned};

use net_base::{Label, NoMemory};
use std::alloc::Global;
use std::marker::Model;

/// A label, and the slot of the end that owns it.
#[derive(Clone, Copy)]
pub struct OwnedLabel {
    label: Label,
    slot: usize,
}

/// The labels that are owned, in rising order, each with the slot of its end. An end is found by its label without a walk over
/// them. All memory is taken where it is opened. Contracts see the most labels that are owned at once, and those that are.
#[derive(Drop)]
pub struct OwnedLabels {
    room: usize,
    labels: Vec<OwnedLabel>,
}

impl Model for OwnedLabels {
    ghost use Rattle.std.specs.Prelude.{vec_capacity};
    ghost use Rattle.pw_ends.specs.Owned.{IsOwnedList, OwnedList};

    ghost Value = { OwnedList };

    ghost view = { λ o. record { room = o.room; labels = o.labels.items } };

    ghost invariant = { λ o. IsOwnedList o.room (vec_capacity o.labels) o.labels.items };
}

impl OwnedLabels {
    /// No label is owned, and memory for so many is taken.
    pub(crate) fn open(alloc: Global, room: usize) -> Result<OwnedLabels, NoMemory>
        ensures { IfOk result (λ owned. owned ≡ record { room = room; labels = [] }) }
    {
        Ok(OwnedLabels {
            room,
            labels: Vec::with_capacity(alloc, room)?,
        })
    }

    /// The end of a slot owns a label that no end owned.
    pub(crate) fn add(&mut self, label: Label, slot: usize)
        requires room { length self.old.labels < self.old.room }
        requires unowned { slot_of label self.old.labels ≡ None }
        ensures { self.new ≡ with_owned_label label slot self.old }
    {
        let place = count_before(self.labels.as_slice(), label.number());
        // The memory for it was taken where this was opened.
        self.labels
            .insert(place, OwnedLabel { label, slot })
            .unwrap();
    }

    /// No end owns the label any more.
    pub(crate) fn remove(&mut self, label: Label)
        ensures { self.new ≡ without_owned label self.old }
    {
        forget(&mut self.labels, label);
    }

    /// No label is owned any more.
    pub(crate) fn clear(&mut self)
        ensures { self.new ≡ record { room = self.old.room; labels = [] } }
    {
        self.labels.clear();
    }

    /// The slot of the end that owns the label with this number.
    pub(crate) fn slot(&self, number: u32) -> Option<usize>
        ensures { result ≡ slot_of number self.now.labels }
    {
        let labels = self.labels.as_slice();
        match labels.get(count_before(labels, number)) {
            Some(owned) if is_same(owned, number) => Some(owned.slot),
            _ => None,
        }
    }
}

// Takes a label out. A test by a closure is proved where it stands alone.
fn forget(labels: &mut Vec<OwnedLabel>, label: Label)
    ensures items { labels.new.items ≡ filter (λ o. not (has_label label o)) labels.old.items }
    ensures room { vec_capacity labels.new ≡ vec_capacity labels.old }
{
    labels.retain(|owned| !is_same(owned, label.number()));
}

// Whether it is the label with this number.
fn is_same(owned: &OwnedLabel, number: u32) -> bool
    ensures { result ≡ has_label number owned.now }
{
    owned.label.number() == number
}

// How many labels are smaller than a number: where its label stands, or would. A search by a closure is proved where it stands
// alone.
fn count_before(labels: &[OwnedLabel], number: u32) -> usize
    requires { AreRising labels.now }
    ensures within { result ≤ length labels.now }
    ensures place { (new : OwnedLabel) → new.label ≡ number → insert labels.now result new ≡ put_by label_in new labels.now }
    ensures found { find (has_label number) labels.now ≡ kept_if (has_label number) (slice_get labels.now result) }
{
    labels.partition_point(|owned| owned.label.number() < number)
}
