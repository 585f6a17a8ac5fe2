//! An edge, as it is seen.
ghost use Rattle.std.specs.Prelude.{◌≡◌, ◌<◌, ℕ, false, length, slice_index_or, IfOk, replicate};
ghost use Rattle.seen_state.specs.PeerEnd.{no_end};

use crate::peer_end::PeerEnd;
use net_base::NoMemory;
use std::alloc::Global;
use std::marker::Model;

/// An edge's ends of connections, by the places of the peers, and the wires that are up at it, by their places.
#[derive(Drop)]
pub struct SeenEdge {
    pub(crate) ends: Vec<PeerEnd>,
    pub(crate) up: Vec<bool>,
}

impl Model for SeenEdge {
    ghost use Rattle.seen_state.specs.SeenEdges.{EdgeSeen};

    ghost Value = { EdgeSeen };

    ghost view = { λ e. record { ends = e.ends.items; up = e.up.items } };
}

impl SeenEdge {
    /// An edge before the first entry.
    pub fn new(alloc: Global, edges: usize, wires: usize) -> Result<SeenEdge, NoMemory>
        ensures ends { IfOk result (λ edge. edge.ends ≡ replicate edges no_end) }
        ensures up { IfOk result (λ edge. edge.up ≡ replicate wires false) }
    {
        let ends = new_ends(alloc, edges)?;
        let up = vec![in alloc; false; wires]?;
        Ok(SeenEdge { ends, up })
    }

    /// The edge is as before the first entry.
    pub fn restart(&mut self)
        ensures ends { (k : ℕ) → slice_index_or self.new.ends k no_end ≡ no_end }
        ensures up { (k : ℕ) → slice_index_or self.new.up k false ≡ false }
        ensures edges { length self.new.ends ≡ length self.old.ends }
        ensures wires { length self.new.up ≡ length self.old.up }
    {
        self.end_all();
        self.all_down();
    }

    // All ends go.
    #[tactic(auto, using(crate::proofs::RowLemmas::row_steps))]
    fn end_all(&mut self)
        ensures ends { (k : ℕ) → slice_index_or self.new.ends k no_end ≡ no_end }
        ensures edges { length self.new.ends ≡ length self.old.ends }
        ensures up { self.new.up ≡ self.old.up }
    {
        let count = self.ends.len();
        for peer in 0..count {
            self.ends[peer].go();
        }
    }

    // No wire is up.
    #[tactic(auto, using(crate::proofs::RowLemmas::row_steps))]
    fn all_down(&mut self)
        ensures up { (k : ℕ) → slice_index_or self.new.up k false ≡ false }
        ensures wires { length self.new.up ≡ length self.old.up }
        ensures ends { self.new.ends ≡ self.old.ends }
    {
        let count = self.up.len();
        for wire in 0..count {
            self.up[wire] = false;
        }
    }
}

// So many ends that do not stand.
#[tactic(auto, using(crate::proofs::RowLemmas::replicate_steps))]
fn new_ends(alloc: Global, count: usize) -> Result<Vec<PeerEnd>, NoMemory>
    ensures { IfOk result (λ ends. ends.items ≡ replicate count no_end) }
{
    let mut ends = Vec::new(alloc);
    for _peer in 0..count {
        ends.push(PeerEnd::new(alloc))?;
    }
    Ok(ends)
}
