//! What stands in front of the octets held.
ghost use Rattle.std.specs.Prelude.{◌≡◌, ◌≤◌, ◌+◌, Ok, None, IfErr, IfOk, IfSome, length};
ghost use Rattle.ldp_codec.specs.Part.{joined};
ghost use Rattle.ldp_stream.specs.{Front.{HasPduHeader, IsFrontFault, IsPending, size_of}, Halt.{Halts, IsSpelledBy}, Seen.{IsSeenIn}};

use ldp_codec::{Part, PduView, Stop, view_part};
use ldp_grammar::{Cause, Fault, LEAST_LENGTH, LENGTH_HEADER, Pdu, VERSION};
use net_values::NoMemory;
use std::alloc::Global;

// The size of the PDU in front where its header is there, in octets, or the fault of the header.
#[inline(always)]
fn read_size(held: Part<'_>, max: u16) -> Result<Option<usize>, Fault>
    ensures pending { result ≡ Ok None → IsPending max (joined held.entry) }
    ensures size { IfOk result (λ size. IfSome size (λ n. (n ≡ size_of (joined held.entry)) × HasPduHeader max (joined held.entry))) }
    ensures fault { IfErr result (IsFrontFault max (joined held.entry)) }
{
    // A wrong version is told as soon as it is there, before the PDU Length comes.
    if held.len() < 2 {
        return Ok(None);
    }
    if held.two(0) != VERSION {
        return Err(Fault {
            place: 0,
            cause: Cause::Version,
        });
    }
    if held.len() < LENGTH_HEADER {
        return Ok(None);
    }
    let len = held.two(2);
    if len < LEAST_LENGTH || max < len {
        return Err(Fault {
            place: 2,
            cause: Cause::PduLength,
        });
    }
    Ok(Some(LENGTH_HEADER + len as usize))
}

/// The size of the PDU in front, in octets, as its PDU Length tells.
pub fn size_in(held: Part<'_>) -> usize
    requires { 4 ≤ length (joined held) }
    ensures { result ≡ size_of (joined held.entry) }
{
    LENGTH_HEADER + held.two(2) as usize
}

/// The PDU in front, lent, or nothing where the octets are a proper prefix of a PDU.
#[tactic(auto, using(crate::proofs::StreamLemmas::faulty_whole))]
#[inline(always)]
pub fn view_front(held: Part<'_>, max: u16) -> Result<Option<PduView<'_>>, Fault>
    requires most { max ≤ 4096 }
    ensures pending { result ≡ Ok None → IsPending max (joined held.entry) }
    ensures viewed { IfOk result (λ front. IfSome front (IsSeenIn max (joined held.entry))) }
    ensures fault { IfErr result (IsFrontFault max (joined held.entry)) }
{
    let size = match read_size(held, max) {
        Ok(Some(size)) => size,
        Ok(None) => return Ok(None),
        Err(fault) => return Err(fault),
    };
    if held.len() < size {
        return Ok(None);
    }
    let (piece, _) = held.split_at(size);
    match view_part(piece, max) {
        Ok(view) => Ok(Some(view)),
        Err(fault) => Err(fault),
    }
}

/// The PDU in front and its size in octets, or nothing where the octets are a proper prefix of a PDU.
#[tactic(auto, using(crate::proofs::StreamLemmas::seen_read))]
pub fn decode_front(alloc: Global, held: Part<'_>, max: u16) -> Result<Option<(Pdu, usize)>, Stop>
    requires most { max ≤ 4096 }
    ensures pending { result ≡ Ok None → IsPending max (joined held.entry) }
    ensures spelled { IfOk result (λ front. IfSome front (λ f. IsSpelledBy max (joined held.entry) f.0 f.1)) }
    ensures halt { IfErr result (Halts max (joined held.entry)) }
{
    let view = match view_front(held, max) {
        Ok(Some(view)) => view,
        Ok(None) => return Ok(None),
        Err(fault) => return Err(Stop::At(fault)),
    };
    match view.read(alloc) {
        Ok(pdu) => Ok(Some((pdu, size_in(held)))),
        Err(NoMemory) => Err(Stop::NoMemory),
    }
}
