//! The pipes from one edge.
ghost use Rattle.std.specs.Prelude.{◌≡◌, [], replicate, IfOk};

use crate::pipe::Pipe;
use net_base::NoMemory;
use std::alloc::Global;
use std::marker::Model;

/// The pipes from one edge, one to each edge of the plan by its place.
#[derive(Drop)]
pub struct PipeRow {
    pub(crate) pipes: Vec<Pipe>,
}

impl Model for PipeRow {
    ghost use Rattle.std.specs.Prelude.{ℕ, List};

    ghost Value = { List (List ℕ) };

    ghost view = { λ r. r.pipes.items };
}

impl PipeRow {
    /// So many empty pipes.
    #[tactic(auto, using(crate::proofs::EmptyLemmas::replicate_steps))]
    pub fn open(alloc: Global, size: usize) -> Result<PipeRow, NoMemory>
        ensures { IfOk result (λ row. row ≡ replicate size []) }
    {
        let mut pipes = Vec::new(alloc);
        for _place in 0..size {
            pipes.push(Pipe::new(alloc))?;
        }
        Ok(PipeRow { pipes })
    }
}
