//! The sink over a writer of the system.
ghost use Rattle.std.specs.{Prelude.{◌≡◌, ◌<◌, ◌≤◌, [], length, IfOk, IsOkAnd}, Io.{WritesAtMost}, Io.KnownBytes.{WriteAppends}};
ghost use Rattle.net_base.specs.outside.Outside.{HasCause, Takes};
ghost use Rattle.vplsnet.specs.Files.{count_after};

use crate::write_call::WriteCall;
use crate::write_log::WriteLog;
use net_base::{Failed, Sink};
use std::io;
use std::io::{ErrorKind, Write};
use std::marker::Model;

/// A writer of the system. It tells the octets that its writer said it took, of each write in turn. That these are the octets which the
/// writer has is told where the writer tells what it has; that of standard output does not, and there it is the system's part.
#[derive(Drop)]
pub struct StdSink<W: Write + Drop> {
    writer: W,
    faults: u64,
    log: WriteLog,
}

impl<W: Write + Drop> Model for StdSink<W> {
    ghost use Rattle.vplsnet.specs.Files.{SinkState};

    ghost Value = { SinkState };

    ghost view = { λ s. record { taken = s.log.octets; contents = W.contents s.writer; faults = s.faults } };
}

impl<W: Write + Drop> StdSink<W> {
    /// A sink over a writer that keeps nothing back, which has taken nothing yet, with no fault counted.
    pub fn new(writer: W) -> Self
        ensures taken { result.taken ≡ [] }
        ensures contents { result.contents ≡ W.contents writer }
        ensures faults { result.faults ≡ 0 }
    {
        StdSink {
            writer,
            faults: 0,
            log: WriteLog::new(),
        }
    }
}

// Writes once, and again where a signal interrupts it.
fn write_again<W: Write>(writer: &mut W, piece: &[u8]) -> io::Result<usize>
    ensures bound { WritesAtMost result piece.now }
    ensures bytes { WriteAppends (W.contents writer.old) (W.contents writer.new) result piece.now }
{
    for _ in 0..u64::MAX {
        match writer.write(piece) {
            Err(error) if error.kind() == ErrorKind::Interrupted => {}
            result => return result,
        }
    }
    Err(io::Error::from(ErrorKind::Interrupted))
}

impl<W: Write + Drop> Sink for StdSink<W> {
    ghost use Rattle.std.specs.Prelude.{Some};

    ghost taken = { λ sink. Some sink.taken };

    ghost faults = { λ sink. sink.faults };

    /// Writes once. Each error of the system is a fault, and so is that nothing is taken of a piece that is not
    /// empty.
    fn write(&mut self, piece: &[u8]) -> Result<usize, Failed>
        ensures bound { IfOk result (λ count. count ≤ length piece.now) }
        ensures progress { IfOk result (λ count. 0 < length piece.now → 0 < count) }
        ensures taken { Takes (Some self.old.taken) (Some self.new.taken) piece.now result }
        ensures contents { Takes self.old.contents self.new.contents piece.now result }
        ensures cause { HasCause self.old.faults self.new.faults result }
        ensures empty { length piece.now ≡ 0 → IsOkAnd result (λ count. count ≡ 0) }
        ensures counted { self.new.faults ≡ count_after self.old.faults result }
    {
        if piece.is_empty() {
            return Ok(0);
        }
        match write_again(&mut self.writer, piece) {
            Ok(count) if count > 0 => {
                self.log = self.log.with_write(&WriteCall { piece, count });
                Ok(count)
            }
            _ => {
                self.faults = self.faults.saturating_add(1);
                Err(Failed)
            }
        }
    }

    fn faults(&self) -> u64 {
        self.faults
    }
}
