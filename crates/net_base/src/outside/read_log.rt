//! The reads that a shelf was asked for, with their answers. They exist in proofs alone.
ghost use Rattle.std.specs.{Prelude.{◌≡◌, ◌++◌, ◌∷◌, [], List}, Borrow.{ftrue}};
ghost use Rattle.net_base.specs.outside.Outside.{ReadCall, unless_failed};

use crate::outside::read::Read;
use std::marker::Model;

/// The reads that a shelf was asked for, in order, each with what it answered. It takes no memory, and its calls do nothing when they run.
#[derive(Drop)]
pub struct ReadLog {
    pub ghost reads: { List ReadCall },
}

impl Model for ReadLog {
    ghost also_owns = { λ _. ftrue };
}

impl ReadLog {
    /// No read yet.
    pub fn new() -> ReadLog
        ensures { result.reads ≡ [] }
    {
        ReadLog {}
    }

    /// The same reads, and this one behind them.
    pub fn with_read(&self, _read: &Read<'_>) -> ReadLog
        ensures { result.reads ≡ self.now.reads ++ record { name = _read.now.name.now; from = _read.now.from; room = _read.now.room; answer = unless_failed _read.now.failed _read.now.octets.now } ∷ [] }
    {
        ReadLog {}
    }
}
