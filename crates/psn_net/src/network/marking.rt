//! The index of what may be delivered is kept: the pairs of edges between which an event may have changed something are marked anew. An
//! edge tells of each connection of which it changes anything, but for what a delivery takes out of its pipe and for a restart.
ghost use Rattle.std.specs.Prelude.{◌≡◌, ◌<◌, drop, length};
ghost use Rattle.net_base.specs.plan.Planned.{IsEventOf};
ghost use Rattle.psn_net.specs.DeliveryIndex.{AreMarkedAnew, HasMarkedPair, IsIndexed, IsIndexedBeside, IsMarked, is_pair, changes_between, is_told_between, is_told_by, may_change};

use crate::pair_index::PairIndex;
use crate::parts::Parts;
use net_base::{EdgeId, Entry, Event};

// The index after an event, whose entries are those of the trace from a place on. Cut for the prover: what is left is not found where
// the event is done beside it.
#[tactic(auto, using(crate::proofs::IndexLemmas::event_marked))]
pub(crate) fn mark_after(index: &mut PairIndex, parts: &Parts, event: &Event, told: usize)
    requires event { IsEventOf parts.now.plan event.now }
    requires size { length index.old.rows ≡ length parts.now.plan.edges }
    requires before { IsIndexedBeside parts.now index.old (may_change event.now (drop told parts.now.trace)) }
    ensures size { length index.new.rows ≡ length index.old.rows }
    ensures after { IsIndexed parts.now index.new }
{
    mark_set(index, parts, event);
    mark_told(index, parts, told);
}

// The pairs that an event changes although no entry tells of them.
#[tactic(auto, using(crate::proofs::IndexLemmas::set_steps))]
fn mark_set(index: &mut PairIndex, parts: &Parts, event: &Event)
    requires event { IsEventOf parts.now.plan event.now }
    requires size { length index.old.rows ≡ length parts.now.plan.edges }
    ensures size { length index.new.rows ≡ length index.old.rows }
    ensures marked { AreMarkedAnew parts.now (changes_between event.now) index.old index.new }
{
    match event {
        Event::Deliver { from, to, .. } => mark_pair(index, parts, *from, *to),
        Event::Restart { edge } => mark(index, parts, *edge),
        Event::Connect { .. } | Event::Lose { .. } | Event::Tick => {}
        Event::Frame { .. } | Event::Circuit { .. } => {}
        Event::Wire { .. } | Event::Status { .. } | Event::Priority { .. } => {}
        Event::Arrive { .. } | Event::Discard { .. } | Event::Again { .. } => {}
        Event::Ping { .. } => {}
    }
}

// The pairs of which the entries from a place of the trace on tell. A frame changes no other.
#[tactic(auto, using(crate::proofs::IndexLemmas::entry_steps))]
pub(crate) fn mark_told(index: &mut PairIndex, parts: &Parts, told: usize)
    requires size { length index.old.rows ≡ length parts.now.plan.edges }
    requires before { IsIndexedBeside parts.now index.old (is_told_between (drop told parts.now.trace)) }
    ensures size { length index.new.rows ≡ length index.old.rows }
    ensures after { IsIndexed parts.now index.new }
{
    let entries = parts.trace().as_slice();
    for place in told..entries.len() {
        mark_entry(index, parts, &entries[place]);
    }
}

// The pair of which an entry tells, where it tells of one.
#[tactic(auto, using(crate::proofs::IndexLemmas::marked_nowhere))]
fn mark_entry(index: &mut PairIndex, parts: &Parts, entry: &Entry)
    requires size { length index.old.rows ≡ length parts.now.plan.edges }
    ensures size { length index.new.rows ≡ length index.old.rows }
    ensures marked { AreMarkedAnew parts.now (is_told_by entry.now) index.old index.new }
{
    match entry {
        Entry::Said { from, to, .. } => mark_known(index, parts, *from, *to),
        Entry::Session { edge, peer, .. } => mark_known(index, parts, *edge, *peer),
        _ => {}
    }
}

// The two pairs of two edges, where the plan has both.
#[tactic(auto, using(crate::proofs::IndexLemmas::known_steps))]
fn mark_known(index: &mut PairIndex, parts: &Parts, me: EdgeId, other: EdgeId)
    requires size { length index.old.rows ≡ length parts.now.plan.edges }
    ensures size { length index.new.rows ≡ length index.old.rows }
    ensures marked { AreMarkedAnew parts.now (is_pair me.0 other.0) index.old index.new }
{
    let count = parts.count();
    if (me.0 as usize) < count && (other.0 as usize) < count {
        mark_pair(index, parts, me, other);
    }
}

// The pairs of one edge.
#[tactic(auto, using(crate::proofs::IndexLemmas::mark_steps))]
fn mark(index: &mut PairIndex, parts: &Parts, me: EdgeId)
    requires me { me.0 < length parts.now.plan.edges }
    requires size { length index.old.rows ≡ length parts.now.plan.edges }
    ensures size { length index.new.rows ≡ length index.old.rows }
    ensures marked { IsMarked parts.now me.0 index.old index.new }
{
    let count = parts.count();
    for place in 0..count {
        mark_pair(index, parts, me, EdgeId(place as u16));
    }
}

// The two pairs of two edges.
#[tactic(auto, using(crate::proofs::IndexLemmas::marked_pair))]
fn mark_pair(index: &mut PairIndex, parts: &Parts, me: EdgeId, other: EdgeId)
    requires me { me.0 < length parts.now.plan.edges }
    requires other { other.0 < length parts.now.plan.edges }
    requires size { length index.old.rows ≡ length parts.now.plan.edges }
    ensures size { length index.new.rows ≡ length index.old.rows }
    ensures marked { HasMarkedPair parts.now me.0 other.0 index.old index.new }
{
    let (there, back) = parts.deliverable_between(me, other);
    index.put(me.0 as usize, other.0 as usize, there);
    index.put(other.0 as usize, me.0 as usize, back);
}
