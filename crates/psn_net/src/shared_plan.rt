//! The plan of a network, and which of its edges are joined.
ghost use Rattle.std.specs.Prelude.{◌≡◌, ◌==◌, ◌&&◌, ◌||◌, ◌<◌, ℕ, true, length, IfOk};
ghost use Rattle.net_base.specs.{plan.Accepted.{IsChecked}, plan.Paths.{are_joined, joins, joins_first}};
ghost use Rattle.psn_net.specs.{PairIndex.{has_mark}, SharedPlan.{IsJoinedIndex, are_below}};

use crate::pair_index::PairIndex;
use net_base::{EdgeId, NoMemory, Plan};
use std::alloc::Global;
use std::marker::Model;
use std::ops::Deref;
use std::rc::Rc;

/// The plan that the edges of a network share, and a mark for each two edges that are joined, so that this is looked up and not
/// sought on the wires at each event. Contracts see the plan.
#[derive(Drop)]
pub struct SharedPlan {
    plan: Rc<Plan>,
    joined: PairIndex,
}

impl Model for SharedPlan {
    ghost use Rattle.net_base.specs.declared.plan.Plan.{Plan as Rows};
    ghost use Rattle.psn_net.specs.SharedPlan.{IsJoinedIndex};

    ghost Value = { Rows };

    ghost view = { λ s. s.plan.value };

    ghost invariant = { λ s. IsJoinedIndex s.plan.value s.joined };
}

impl Deref for SharedPlan {
    type Target = Plan;

    ghost deref_gives = { λ shared plan. plan ≡ shared };

    fn deref(&self) -> &Plan {
        &self.plan
    }
}

impl SharedPlan {
    /// The plan, of which it is looked up from now on which edges are joined.
    #[tactic(auto, using(crate::proofs::JoinedLemmas::joined_all))]
    pub fn over(alloc: Global, plan: Rc<Plan>) -> Result<SharedPlan, NoMemory>
        requires { IsChecked plan.value }
        ensures { IfOk result (λ shared. shared ≡ plan.value) }
    {
        match PairIndex::open(alloc, plan.edges.len()) {
            Ok(mut joined) => {
                mark_wires(&mut joined, &plan);
                Ok(SharedPlan { plan, joined })
            }
            Err(fault) => Err(fault),
        }
    }

    /// The plan, as others share it.
    pub fn shared(&self) -> &Rc<Plan>
        ensures { result.now.value ≡ self.now }
    {
        &self.plan
    }

    /// Whether a segment of some wire joins the two edges, in either direction (RFC 6073). It walks over no wire.
    pub fn joined(&self, a: EdgeId, b: EdgeId) -> bool
        requires a { a.0 < length self.now.edges }
        requires b { b.0 < length self.now.edges }
        ensures { result ≡ are_joined self.now a.0 b.0 }
    {
        self.joined.has(a.0 as usize, b.0 as usize)
    }
}

// Marks each two edges that a segment of a wire joins.
#[tactic(auto, using(crate::proofs::JoinedLemmas::wire_steps))]
fn mark_wires(index: &mut PairIndex, plan: &Plan)
    requires checked { IsChecked plan.now }
    requires size { length index.old.rows ≡ length plan.now.edges }
    ensures size { length index.new.rows ≡ length index.old.rows }
    ensures marked { (a b : ℕ) → has_mark index.new a b ≡ (has_mark index.old a b || are_joined plan.now a b) }
{
    let wires = plan.wires.as_slice();
    for place in 0..wires.len() {
        mark_path(index, wires[place].path.as_slice());
    }
}

// Marks each two edges that a segment of the path joins.
#[tactic(auto, using(crate::proofs::JoinedLemmas::path_end))]
fn mark_path(index: &mut PairIndex, path: &[EdgeId])
    requires { are_below (length index.old.rows) path.now ≡ true }
    ensures size { length index.new.rows ≡ length index.old.rows }
    ensures marked { (a b : ℕ) → has_mark index.new a b ≡ (has_mark index.old a b || joins a b path.now) }
{
    let mut rest = path;
    'edges: while !rest.is_empty() {
        rest = after_first(index, rest);
    }
}

// Marks the two edges of the first segment, and gives the rest of the path.
#[tactic(auto, using(crate::proofs::JoinedLemmas::path_steps))]
fn after_first<'a>(index: &mut PairIndex, path: &'a [EdgeId]) -> &'a [EdgeId]
    requires { are_below (length index.old.rows) path.now ≡ true }
    ensures size { length index.new.rows ≡ length index.old.rows }
    ensures below { are_below (length index.old.rows) result.now ≡ true }
    ensures shorter { 0 < length path.now → length result.now < length path.now }
    ensures marked { (a b : ℕ) → (has_mark index.new a b || joins a b result.now) ≡ (has_mark index.old a b || joins a b path.now) }
{
    match path {
        [first, after @ ..] => {
            mark_first(index, *first, after);
            after
        }
        [] => path,
    }
}

// Marks an edge and the first one after it.
fn mark_first(index: &mut PairIndex, first: EdgeId, after: &[EdgeId])
    requires first { first.0 < length index.old.rows }
    requires after { are_below (length index.old.rows) after.now ≡ true }
    ensures size { length index.new.rows ≡ length index.old.rows }
    ensures marked { (a b : ℕ) → has_mark index.new a b ≡ (has_mark index.old a b || joins_first a b first after.now) }
{
    match after {
        [next, ..] => mark_both(index, first, *next),
        [] => {}
    }
}

// Marks two edges, in either order.
fn mark_both(index: &mut PairIndex, first: EdgeId, next: EdgeId)
    requires first { first.0 < length index.old.rows }
    requires next { next.0 < length index.old.rows }
    ensures size { length index.new.rows ≡ length index.old.rows }
    ensures marked { (a b : ℕ) → has_mark index.new a b ≡ (has_mark index.old a b || ((a == first.0 && b == next.0) || (b == first.0 && a == next.0))) }
{
    index.put(first.0 as usize, next.0 as usize, true);
    index.put(next.0 as usize, first.0 as usize, true);
}
