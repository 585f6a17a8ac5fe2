//! Ends by their slots.
ghost use Rattle.std.specs.Prelude.{◌≡◌, ◌<◌, length, map, slice_index_or, replicate, IfOk};
ghost use Rattle.pw_signalling.specs.{AnyEnd.{end_of}, End.{fresh}, Laws.{own_label}, Rows.{advertised, bound}};
ghost use Rattle.pw_ends.specs.Changes.{changed, changed_in};

use crate::end_change::{EndChange, advertise};
use net_base::{Label, NoMemory};
use pw_signalling::{Binding, PwEnd, PwIdle, Told};
use std::alloc::Global;
use std::mem;

/// As many ends of which nothing was told.
pub(crate) fn idle_ends(alloc: Global, count: usize) -> Result<Vec<PwEnd>, NoMemory>
    ensures { IfOk result (λ ends. map end_of ends.items ≡ replicate count fresh) }
{
    let mut ends = Vec::with_capacity(alloc, count)?;
    for _slot in 0..count {
        ends.push(PwEnd::Idle(PwIdle::new()))?;
    }
    Ok(ends)
}

/// Each end is as it was where nothing was told of it.
#[tactic(auto, using(crate::proofs::IdleLemmas::idle_steps))]
pub(crate) fn make_idle(ends: &mut Vec<PwEnd>)
    ensures { map end_of ends.new.items ≡ replicate (length ends.old.items) fresh }
{
    for end in ends.iter_mut() {
        *end = PwEnd::Idle(PwIdle::new());
    }
}

/// The label that the end of a slot owns: from its advertisement until it is idle.
#[tactic(auto, using(pw_signalling::proofs::EndsLemmas::moves, crate::proofs::SlotLemmas::look_at))]
pub(crate) fn own_label_at(ends: &[PwEnd], slot: usize) -> Option<Label>
    requires { slot < length ends.now }
    ensures { result ≡ own_label (slice_index_or (map end_of ends.now) slot fresh).local }
{
    match &ends[slot] {
        PwEnd::Idle(_) => None,
        PwEnd::Advertised(end) => Some(end.label()),
        PwEnd::Withdrawing(end) => Some(end.label()),
    }
}

/// The end of a slot advertises a label, where it is idle.
#[tactic(auto, using(pw_signalling::proofs::EndsLemmas::moves))]
pub(crate) fn advertise_at(ends: &mut Vec<PwEnd>, slot: usize, label: Label, told: &Told)
    requires { slot < length ends.old.items }
    ensures { map end_of ends.new.items ≡ changed_in (advertised label told.now) slot (map end_of ends.old.items) }
{
    let end = mem::replace(&mut ends[slot], PwEnd::Idle(PwIdle::new()));
    ends[slot] = advertise(end, label, told);
}

/// The end of a slot holds a binding.
#[tactic(auto, using(pw_signalling::proofs::EndsLemmas::moves))]
pub(crate) fn bind_at(ends: &mut Vec<PwEnd>, slot: usize, binding: &Binding)
    requires { slot < length ends.old.items }
    ensures { map end_of ends.new.items ≡ changed_in (bound binding.now) slot (map end_of ends.old.items) }
{
    let end = mem::replace(&mut ends[slot], PwEnd::Idle(PwIdle::new()));
    ends[slot] = end.on_mapping(*binding);
}

/// The end of a slot is changed.
#[tactic(auto, using(pw_signalling::proofs::EndsLemmas::moves))]
pub(crate) fn change_at(ends: &mut Vec<PwEnd>, slot: usize, change: &EndChange)
    requires { slot < length ends.old.items }
    ensures { map end_of ends.new.items ≡ changed_in (changed change.now) slot (map end_of ends.old.items) }
{
    let end = mem::replace(&mut ends[slot], PwEnd::Idle(PwIdle::new()));
    ends[slot] = change.of(end);
}
