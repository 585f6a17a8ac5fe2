//! The numbers that are kept to be given again.
ghost use Rattle.std.specs.Prelude.{◌≡◌, ◌≤◌, ◌+◌, ◌++◌, not, map, filter, [], Some, None, is_some, length, All, vec_capacity, IfOk, IfSome, IsPermutation};
ghost use Rattle.std.specs.{BinaryHeap.{IsHeap, heap_capacity, heap_items, heap_len}, Ordering.{nat_cmp}};
ghost use Rattle.net_values.specs.Label.{IsLabel};
ghost use Rattle.label_space.specs.declared.kept.KeptState.TheVariants as state;
ghost use Rattle.label_space.specs.Kept.{is_free, kept_at, keeps, least_free, met, met_one, rests, ticked, ticked_one, ticked_state, without_one};
ghost use Rattle.label_space.specs.Stored.{freed_number};

use crate::{Kept, KeptState};
use net_base::{EdgeId, Label, NoMemory};
use std::alloc::Global;
use std::cmp::Reverse;
use std::collections::BinaryHeap;
use std::marker::Model;

// How many numbers are kept at most, and for how many ticks a number rests.
const MOST_KEPT: usize = 4096;

const REST_TICKS: u8 = 64;

/// The numbers that were freed and are kept to be given again. A tick looks at those alone that rest, and the least that is free
/// is at hand. Contracts see all of them as one list in rising order.
#[derive(Drop)]
pub(crate) struct KeptLabels {
    waiting: Vec<Kept>,
    resting: Vec<Kept>,
    // The numbers that are free, the least on top.
    free: BinaryHeap<Reverse<u32>>,
}

impl Model for KeptLabels {
    ghost use Rattle.std.specs.{Prelude.{List, vec_capacity}, BinaryHeap.{heap_capacity, heap_items}};
    ghost use Rattle.label_space.specs.{declared.kept.Kept.{Kept}, Stored.{IsHeldKept, kept_of}};

    ghost Value = { List Kept };

    ghost view = { λ s. kept_of s.waiting.items s.resting.items (heap_items s.free) };

    ghost invariant = { λ s. IsHeldKept (vec_capacity s.waiting) (vec_capacity s.resting) (heap_capacity s.free) s.waiting.items s.resting.items (heap_items s.free) };
}

impl KeptLabels {
    // No number is kept. Memory for as many as are ever kept is taken here.
    pub(crate) fn open(alloc: Global) -> Result<KeptLabels, NoMemory>
        ensures { IfOk result (λ kept. kept ≡ []) }
    {
        Ok(KeptLabels {
            waiting: Vec::with_capacity(alloc, MOST_KEPT)?,
            resting: Vec::with_capacity(alloc, MOST_KEPT)?,
            free: BinaryHeap::with_capacity(alloc, MOST_KEPT)?,
        })
    }

    // How many numbers are kept.
    fn len(&self) -> usize
        ensures { result ≡ length self.now }
    {
        self.waiting.len() + self.resting.len() + self.free.len()
    }

    // A number waits for the neighbour that it was given for, as long as there is room.
    pub(crate) fn keep(&mut self, label: Label, peer: EdgeId)
        requires { kept_at label self.old ≡ None }
        ensures { self.new ≡ keeps label peer self.old }
    {
        if self.len() < MOST_KEPT {
            let state = KeptState::Waits(peer);
            // The memory for it was taken where this was opened.
            self.waiting.push_reserved(Kept { label, state });
        }
    }

    // A connection with a neighbour begins: what waits for it begins to rest.
    pub(crate) fn met(&mut self, peer: EdgeId)
        ensures { self.new ≡ met peer self.old }
    {
        meet_all(&mut self.waiting, peer);
        add_resting(&mut self.resting, self.waiting.as_slice());
        drop_resting(&mut self.waiting);
    }

    // A tick passes.
    pub(crate) fn tick(&mut self)
        ensures { self.new ≡ ticked self.old }
    {
        tick_all(&mut self.resting);
        add_free(&mut self.free, self.resting.as_slice());
        drop_free(&mut self.resting);
    }

    // Whether a number is free.
    pub(crate) fn has_free(&self) -> bool
        ensures { result ≡ is_some (least_free self.now) }
    {
        !self.free.is_empty()
    }

    // The least number that is free is kept no longer.
    pub(crate) fn take_least(&mut self) -> Option<Label>
        ensures label { result ≡ least_free self.old }
        ensures rest { self.new ≡ without_one result self.old }
        ensures free { IfSome result (λ label. kept_at label self.old ≡ Some state.Free) }
    {
        let Some(Reverse(number)) = self.free.pop() else {
            return None;
        };
        Label::new(number)
    }
}

// What waits for a neighbour begins to rest.
#[tactic(auto, using(crate::proofs::EachLemmas::each_next))]
fn meet_all(kept: &mut Vec<Kept>, peer: EdgeId)
    ensures items { kept.new.items ≡ met peer kept.old.items }
    ensures room { vec_capacity kept.new ≡ vec_capacity kept.old }
{
    for one in kept.iter_mut() {
        meet(one, peer);
    }
}

fn meet(one: &mut Kept, peer: EdgeId)
    ensures { one.new ≡ met_one peer one.old }
{
    if let KeptState::Waits(other) = one.state
        && other == peer
    {
        one.state = KeptState::Rests(0);
    }
}

// Whether a number rests.
fn rests(one: &Kept) -> bool
    ensures { result ≡ rests one.now }
{
    matches!(one.state, KeptState::Rests(_))
}

// Those of these numbers that rest stand among what rests. There is room for them.
fn add_resting(resting: &mut Vec<Kept>, kept: &[Kept])
    requires { length resting.old.items + length kept.now ≤ vec_capacity resting.old }
    ensures items { resting.new.items ≡ resting.old.items ++ filter rests kept.now }
    ensures room { vec_capacity resting.new ≡ vec_capacity resting.old }
{
    for one in kept {
        if rests(one) {
            resting.push_reserved(*one);
        }
    }
}

// What rests does not stand here any more.
fn drop_resting(kept: &mut Vec<Kept>)
    ensures items { kept.new.items ≡ filter (λ k. not (rests k)) kept.old.items }
    ensures room { vec_capacity kept.new ≡ vec_capacity kept.old }
{
    kept.retain(|one| !rests(one));
}

// Each rest is longer by a tick.
#[tactic(auto, using(crate::proofs::EachLemmas::each_next))]
fn tick_all(kept: &mut Vec<Kept>)
    ensures items { kept.new.items ≡ ticked kept.old.items }
    ensures room { vec_capacity kept.new ≡ vec_capacity kept.old }
{
    for one in kept.iter_mut() {
        tick(one);
    }
}

// The rest of a number is longer by a tick.
fn tick(one: &mut Kept)
    ensures { one.new ≡ ticked_one one.old }
{
    if let KeptState::Rests(ticks) = one.state {
        one.state = rested(ticks);
    }
}

// What a number does that has rested for one tick more than so many.
fn rested(ticks: u8) -> KeptState
    ensures { result ≡ ticked_state (state.Rests ticks) }
{
    if ticks < REST_TICKS - 1 {
        KeptState::Rests(ticks + 1)
    } else {
        KeptState::Free
    }
}

// Whether a number may be given again.
fn is_free(one: &Kept) -> bool
    ensures { result ≡ is_free one.now }
{
    matches!(one.state, KeptState::Free)
}

// Those of these numbers that are free stand on the heap. There is room for them.
fn add_free(free: &mut BinaryHeap<Reverse<u32>>, kept: &[Kept])
    requires heap { IsHeap (λ x y. nat_cmp y.0 x.0) (heap_items free.old) }
    requires labels { All (λ n. IsLabel n.0) (heap_items free.old) }
    requires room { heap_len free.old + length kept.now ≤ heap_capacity free.old }
    ensures heap { IsHeap (λ x y. nat_cmp y.0 x.0) (heap_items free.new) }
    ensures labels { All (λ n. IsLabel n.0) (heap_items free.new) }
    ensures numbers { IsPermutation (map freed_number (heap_items free.old) ++ filter is_free kept.now) (map freed_number (heap_items free.new)) }
    ensures room { heap_capacity free.old ≤ heap_capacity free.new }
{
    for one in kept {
        if is_free(one) {
            free.push(Reverse(one.label.number())).unwrap();
        }
    }
}

// What is free does not stand here any more.
fn drop_free(kept: &mut Vec<Kept>)
    ensures items { kept.new.items ≡ filter (λ k. not (is_free k)) kept.old.items }
    ensures room { vec_capacity kept.new ≡ vec_capacity kept.old }
{
    kept.retain(|one| !is_free(one));
}
