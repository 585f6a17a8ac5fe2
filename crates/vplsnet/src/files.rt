//! Whole files, read in pieces.
ghost use Rattle.std.specs.Prelude.{◌≡◌, ◌<◌, ◌≤◌, ◌+◌, ◌^◌, length, IfErr, IfOk, IsErrOf, OnOk, Some};
ghost use Rattle.net_base.specs.outside.Outside.{Rose, NeverFall};
ghost use Rattle.vplsnet.specs.{Around.{OfFiles, gained}, Files.{IsFrontOf, IsLonger}, Reads.{GainsReads, IsReadOf}};

use net_base::{Failed, List, NoMemory, Octets, Shelf};
use std::alloc::Global;

/// The most octets that one call asks a shelf for.
const PIECE: usize = 4096;

/// Why a file was not read.
#[derive(Clone, Copy, PartialEq, Eq)]
pub enum ReadStop {
    /// A call of the shelf failed, and was counted there.
    Fault,
    /// The file has more octets than the limit.
    TooLong,
    /// Memory was refused.
    NoMemory,
}

/// The octets of a file, or why it was not read.
pub type FileRead = Result<Octets, ReadStop>;

/// Reads a file from its front on, to its end or until one octet more than the limit is read: of all files with which the answers of the
/// shelf agree, exactly the first `min(length, limit + 1)` octets. It asks for no octet beyond `limit + 1`, and for no other file.
///
/// `Fault` comes only where a call with this name failed. `TooLong` never comes.
pub fn read_front<F: Shelf>(alloc: Global, shelf: &mut F, name: &str, limit: usize) -> FileRead
    requires { limit < 2 ^ 62 }
    ensures front { OfFiles (gained (F.reads shelf.old) (F.reads shelf.new)) (λ held. IfOk result (λ octets. IsFrontOf limit (held name.now) octets)) }
    ensures within { IfOk result (λ octets. length octets ≤ limit + 1) }
    ensures fault { IsErrOf result ReadStop.Fault → Rose (F.faults shelf.old name.now) (F.faults shelf.new name.now) }
    ensures never_long { IsErrOf result ReadStop.TooLong → ⊥ }
    ensures reads { GainsReads (IsReadOf (record { name = name.now; limit = limit })) (F.reads shelf.old) (F.reads shelf.new) }
    ensures never_fall { NeverFall (F.faults shelf.old) (F.faults shelf.new) }
{
    let mut octets = List::new(alloc);
    let mut piece = [0u8; PIECE];
    'reading: while octets.len() <= limit {
        // One octet beyond the limit tells a file that is too long from one that just fits.
        let room = (limit + 1 - octets.len()).min(PIECE);
        let count = match shelf.read_at(name, octets.len() as u64, &mut piece[..room]) {
            Ok(0) => return Ok(octets),
            Ok(count) => count,
            Err(Failed) => return Err(ReadStop::Fault),
        };
        match octets.extend_from_slice(&piece[..count]) {
            Ok(()) => {}
            Err(NoMemory) => return Err(ReadStop::NoMemory),
        }
    }
    Ok(octets)
}

/// Reads a file whole, where it has no more octets than the limit, and else answers `TooLong`. It asks for no octet beyond `limit + 1`,
/// and for no other file.
///
/// `Fault` comes only where a call with this name failed.
pub fn read_file<F: Shelf>(alloc: Global, shelf: &mut F, name: &str, limit: usize) -> FileRead
    requires { limit < 2 ^ 62 }
    ensures whole { OfFiles (gained (F.reads shelf.old) (F.reads shelf.new)) (λ held. IfOk result (λ octets. held name.now ≡ Some octets)) }
    ensures within { IfOk result (λ octets. length octets ≤ limit) }
    ensures too_long { OfFiles (gained (F.reads shelf.old) (F.reads shelf.new)) (λ held. IsErrOf result ReadStop.TooLong → IsLonger limit (held name.now)) }
    ensures never_longer { OfFiles (gained (F.reads shelf.old) (F.reads shelf.new)) (λ held. IsLonger limit (held name.now) → OnOk result ⊥) }
    ensures fault { IsErrOf result ReadStop.Fault → Rose (F.faults shelf.old name.now) (F.faults shelf.new name.now) }
    ensures reads { GainsReads (IsReadOf (record { name = name.now; limit = limit })) (F.reads shelf.old) (F.reads shelf.new) }
    ensures never_fall { NeverFall (F.faults shelf.old) (F.faults shelf.new) }
{
    match read_front(alloc, shelf, name, limit) {
        Ok(octets) => within(octets, limit),
        Err(stop) => Err(stop),
    }
}

// The octets, where they are no more than the limit. Apart, since only so does a clause keep a file that is too long from being told as
// want of memory.
fn within(octets: Octets, limit: usize) -> FileRead
    ensures fits { IfOk result (λ same. (same ≡ octets) × (length octets ≤ limit)) }
    ensures long { IfErr result (λ stop. (stop ≡ ReadStop.TooLong) × (limit < length octets)) }
{
    if octets.len() > limit {
        return Err(ReadStop::TooLong);
    }
    Ok(octets)
}
