//! The pipes between edges.
ghost use Rattle.std.specs.Prelude.{◌≡◌, ◌++◌, ◌<◌, [], drop, length, take, IfOk, OnErr, OnOk};
ghost use Rattle.octet_pipes.specs.Pipes.{no_octets, pipes_of, with_pipe_octets, without_to};

use crate::pipe_row::PipeRow;
use net_base::{EdgeId, NoMemory};
use std::alloc::Global;
use std::marker::Model;

/// The pipe from each edge of the plan to each other one. Contracts see a row for each edge, and in it a pipe for each.
#[derive(Drop)]
pub struct Pipes {
    size: usize,
    rows: Vec<PipeRow>,
}

impl Model for Pipes {
    ghost use Rattle.octet_pipes.specs.Pipes.{PipeLists, IsSquare};

    ghost Value = { PipeLists };

    ghost view = { λ p. record { size = p.size; rows = p.rows.items } };

    ghost invariant = { λ p. IsSquare p.size p.rows.items };
}

impl Pipes {
    /// The pipes between so many edges, all empty.
    #[tactic(auto, using(crate::proofs::EmptyLemmas::square_steps))]
    pub fn open(alloc: Global, size: usize) -> Result<Pipes, NoMemory>
        ensures size { IfOk result (λ pipes. pipes.size ≡ size) }
        ensures empty { IfOk result (λ pipes. pipes_of pipes ≡ no_octets) }
    {
        let mut rows = Vec::new(alloc);
        for _place in 0..size {
            rows.push(PipeRow::open(alloc, size)?)?;
        }
        Ok(Pipes { size, rows })
    }

    /// Puts octets into the pipe from an edge to another one. After `NoMemory` the pipes are as they were.
    #[tactic(auto, using(crate::proofs::PipeLemmas::seen_set), unfolding(crate::specs::Pipes::pipes_of))]
    pub fn put(&mut self, from: EdgeId, to: EdgeId, piece: &[u8]) -> Result<(), NoMemory>
        requires from { from.0 < self.old.size }
        requires to { to.0 < self.old.size }
        ensures size { self.new.size ≡ self.old.size }
        ensures ok { OnOk result (pipes_of self.new ≡ with_pipe_octets from.0 to.0 (pipes_of self.old from.0 to.0 ++ piece.now) (pipes_of self.old)) }
        ensures err { OnErr result (pipes_of self.new ≡ pipes_of self.old) }
    {
        self.rows[from.0 as usize].pipes[to.0 as usize].put(piece)
    }

    /// Between how many edges the pipes are.
    pub fn size(&self) -> usize
        ensures { result ≡ self.now.size }
    {
        self.size
    }

    /// How many octets are on their way from the edge at a place to that at another one.
    #[tactic(auto, unfolding(crate::specs::Pipes::pipes_of))]
    pub fn len(&self, from: usize, to: usize) -> usize
        requires from { from < self.now.size }
        requires to { to < self.now.size }
        ensures { result ≡ length (pipes_of self.now from to) }
    {
        self.rows[from].pipes[to].len()
    }

    /// The first `count` octets on their way from an edge to another one, or all where there are fewer.
    #[tactic(auto, unfolding(crate::specs::Pipes::pipes_of))]
    pub fn front(&self, from: EdgeId, to: EdgeId, count: usize) -> &[u8]
        requires from { from.0 < self.now.size }
        requires to { to.0 < self.now.size }
        ensures { result.now ≡ take count (pipes_of self.now from.0 to.0) }
    {
        self.rows[from.0 as usize].pipes[to.0 as usize].front(count)
    }

    /// Gives up the first `count` octets on their way from an edge to another one, or all where there are fewer.
    #[tactic(auto, using(crate::proofs::PipeLemmas::seen_set), unfolding(crate::specs::Pipes::pipes_of))]
    pub fn skip(&mut self, from: EdgeId, to: EdgeId, count: usize)
        requires from { from.0 < self.old.size }
        requires to { to.0 < self.old.size }
        ensures size { self.new.size ≡ self.old.size }
        ensures rest { pipes_of self.new ≡ with_pipe_octets from.0 to.0 (drop count (pipes_of self.old from.0 to.0)) (pipes_of self.old) }
    {
        self.rows[from.0 as usize].pipes[to.0 as usize].skip(count);
    }

    /// Empties the pipe from an edge to another one.
    pub fn clear(&mut self, from: EdgeId, to: EdgeId)
        requires from { from.0 < self.old.size }
        requires to { to.0 < self.old.size }
        ensures size { self.new.size ≡ self.old.size }
        ensures empty { pipes_of self.new ≡ with_pipe_octets from.0 to.0 [] (pipes_of self.old) }
    {
        self.clear_at(from.0 as usize, to.0 as usize);
    }

    // The same of edges by their places.
    #[tactic(auto, using(crate::proofs::PipeLemmas::seen_set), unfolding(crate::specs::Pipes::pipes_of))]
    fn clear_at(&mut self, from: usize, to: usize)
        requires from { from < self.old.size }
        requires to { to < self.old.size }
        ensures size { self.new.size ≡ self.old.size }
        ensures empty { pipes_of self.new ≡ with_pipe_octets from to [] (pipes_of self.old) }
    {
        self.rows[from].pipes[to].clear();
    }

    /// Empties all pipes to an edge.
    #[tactic(auto, using(crate::proofs::PipeLemmas::emptied_steps))]
    pub fn clear_to(&mut self, to: EdgeId)
        requires to { to.0 < self.old.size }
        ensures size { self.new.size ≡ self.old.size }
        ensures empty { pipes_of self.new ≡ without_to to.0 (pipes_of self.old) }
    {
        let size = self.rows.len();
        for from in 0..size {
            self.clear_at(from, to.0 as usize);
        }
    }
}
