//! A file that is named, read whole.
ghost use Rattle.std.specs.Prelude.{◌≤◌, ◌<◌, ◌^◌, length, IfErr, IfOk};
ghost use Rattle.net_base.specs.outside.Outside.{NeverFall};
ghost use Rattle.vplsnet.specs.{Around.{Has, gained}, Files.{IsNotHad, Unread}, Reads.{GainsReads, IsReadOf}};

use crate::files::{ReadStop, read_file};
use crate::outcome::Outcome;
use net_base::{Octets, Shelf, Word};
use std::alloc::Global;

/// The octets of a file of at most so many octets, or the outcome that tells why they were not had.
pub fn octets_of<F: Shelf>(
    alloc: Global,
    shelf: &mut F,
    name: &str,
    limit: usize,
) -> Result<Octets, Outcome>
    requires { limit < 2 ^ 62 }
    ensures has { IfOk result (Has (gained (F.reads shelf.old) (F.reads shelf.new)) name.now) }
    ensures fits { IfOk result (λ octets. length octets ≤ limit) }
    ensures not_had { IfErr result (IsNotHad (gained (F.reads shelf.old) (F.reads shelf.new)) (F.faults shelf.old) (F.faults shelf.new) name.now limit) }
    ensures reads { GainsReads (IsReadOf (record { name = name.now; limit = limit })) (F.reads shelf.old) (F.reads shelf.new) }
    ensures never_fall { NeverFall (F.faults shelf.old) (F.faults shelf.new) }
{
    match read_file(alloc, shelf, name, limit) {
        Ok(octets) => Ok(octets),
        Err(stop) => Err(unread(alloc, stop, name, limit)),
    }
}

// Why a file was not read, as an outcome: a fault as it is, and a file that is too long by its name, which takes memory. Apart, since only
// so does a clause keep a fault from being told as want of memory.
fn unread(alloc: Global, stop: ReadStop, name: &str, limit: usize) -> Outcome
    ensures { Unread stop name.now limit result }
{
    match stop {
        ReadStop::Fault => Outcome::ReadFault,
        ReadStop::TooLong => match Word::new(alloc, name) {
            Ok(name) => Outcome::TooLong {
                name,
                limit: limit as u64,
            },
            Err(_) => Outcome::NoMemory,
        },
        ReadStop::NoMemory => Outcome::NoMemory,
    }
}
