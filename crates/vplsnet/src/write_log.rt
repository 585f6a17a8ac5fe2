//! The octets that a writer said it took. They exist in proofs alone.
ghost use Rattle.std.specs.{Prelude.{◌≡◌, ◌++◌, [], take, ℕ, List}, Borrow.{ftrue}};

use crate::write_call::WriteCall;
use std::marker::Model;

/// The octets that a writer said it took, in order. The log takes no memory, and its calls do nothing when they run.
#[derive(Drop)]
pub struct WriteLog {
    pub ghost octets: { List ℕ },
}

impl Model for WriteLog {
    ghost also_owns = { λ _. ftrue };
}

impl WriteLog {
    /// No octet yet.
    pub fn new() -> WriteLog
        ensures { result.octets ≡ [] }
    {
        WriteLog {}
    }

    /// The same octets, and behind them those that were taken of this piece.
    pub fn with_write(&self, _write: &WriteCall<'_>) -> WriteLog
        ensures { result.octets ≡ self.now.octets ++ take _write.now.count _write.now.piece.now }
    {
        WriteLog {}
    }
}
