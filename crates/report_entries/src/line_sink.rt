//! A sink that keeps what it takes.
ghost use Rattle.std.specs.Prelude.{◌≡◌, []};

use net_base::{Failed, Sink};
use std::alloc::Global;
use std::marker::Model;

/// Takes all that is put, and keeps it. `Failed` comes where memory is refused.
#[derive(Drop)]
pub struct LineSink {
    octets: Vec<u8>,
    faults: u64,
}

impl Model for LineSink {
    ghost use Rattle.report_entries.specs.LineSink.{Kept};

    ghost Value = { Kept };

    ghost view = { λ s. record { octets = s.octets.items; faults = s.faults } };
}

impl LineSink {
    /// A sink that has taken nothing.
    pub fn new(alloc: Global) -> LineSink
        ensures { result ≡ record { octets = []; faults = 0 } }
    {
        LineSink {
            octets: Vec::new(alloc),
            faults: 0,
        }
    }

    /// The octets taken.
    pub fn octets(&self) -> &[u8]
        ensures { result.now ≡ self.now.octets }
    {
        self.octets.as_slice()
    }

    /// It has taken nothing again.
    pub fn clear(&mut self)
        ensures { self.new.octets ≡ [] }
    {
        self.octets.clear();
    }
}

impl Sink for LineSink {
    ghost use Rattle.std.specs.Prelude.{Some};

    ghost taken = { λ sink. Some sink.octets };

    ghost faults = { λ sink. sink.faults };

    fn write(&mut self, piece: &[u8]) -> Result<usize, Failed> {
        if piece.is_empty() {
            return Ok(0);
        }
        match self.octets.extend_from_slice(piece) {
            Ok(()) => Ok(piece.len()),
            Err(_) => {
                self.faults = self.faults.saturating_add(1);
                Err(Failed)
            }
        }
    }

    fn faults(&self) -> u64 {
        self.faults
    }
}
