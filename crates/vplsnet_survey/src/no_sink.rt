//! A sink that drops what is written.
use net_base::{Failed, Sink};

/// It takes all, and keeps nothing.
#[derive(Drop)]
pub struct NoSink {}

impl Sink for NoSink {
    ghost use Rattle.std.specs.Prelude.{None};

    ghost taken = { λ sink. None };

    ghost faults = { λ sink. 0 };

    fn write(&mut self, piece: &[u8]) -> Result<usize, Failed> {
        Ok(piece.len())
    }

    fn faults(&self) -> u64 {
        0
    }
}
