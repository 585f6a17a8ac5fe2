//! A pipe of octets.
ghost use Rattle.std.specs.Prelude.{◌≡◌, ◌++◌, [], length, take, drop, OnOk, OnErr};

use net_base::NoMemory;
use std::alloc::Global;
use std::marker::Model;

/// The octets that an edge put towards another one and that are not delivered yet, in order. Contracts see the list of
/// them. The octets before `start` are delivered; they go when they are more than half of what lies there, so that
/// deliveries move at most as many octets as they deliver, and never more lie there than twice those in the pipe.
#[derive(Drop)]
pub struct Pipe {
    octets: Vec<u8>,
    start: usize,
}

impl Model for Pipe {
    ghost use Rattle.std.specs.Prelude.{ℕ, List, drop, ◌≤◌, ◌+◌, length};

    ghost Value = { List ℕ };

    ghost view = { λ p. drop p.start p.octets.items };

    ghost invariant = { λ p. p.start + p.start ≤ length p.octets.items };
}

impl Pipe {
    /// An empty pipe. It takes no memory until octets are put.
    pub fn new(alloc: Global) -> Pipe
        ensures { result ≡ [] }
    {
        Pipe {
            octets: Vec::new(alloc),
            start: 0,
        }
    }

    /// How many octets are in the pipe.
    pub fn len(&self) -> usize
        ensures { result ≡ length self.now }
    {
        self.octets.len() - self.start
    }

    /// Puts octets at the end. After `NoMemory` the pipe is as it was.
    pub fn put(&mut self, piece: &[u8]) -> Result<(), NoMemory>
        ensures ok { OnOk result (self.new ≡ self.old ++ piece.now) }
        ensures err { OnErr result (self.new ≡ self.old) }
    {
        self.octets.extend_from_slice(piece)?;
        Ok(())
    }

    /// The first `count` octets, or all where there are fewer.
    pub fn front(&self, count: usize) -> &[u8]
        ensures { result.now ≡ take count self.now }
    {
        let (_, rest) = self.octets.as_slice().split_at(self.start);
        let (first, _) = rest.split_at(count.min(rest.len()));
        first
    }

    /// Gives up the first `count` octets, or all where there are fewer.
    pub fn skip(&mut self, count: usize)
        ensures { self.new ≡ drop count self.old }
    {
        self.start += count.min(self.octets.len() - self.start);
        if self.start > self.octets.len() / 2 {
            let left = self.octets.len() - self.start;
            self.octets.rotate_left(self.start);
            self.octets.truncate(left);
            self.start = 0;
        }
    }

    /// Empties the pipe.
    pub fn clear(&mut self)
        ensures { self.new ≡ [] }
    {
        self.octets.clear();
        self.start = 0;
    }
}
