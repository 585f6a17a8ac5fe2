//! The header of a PDU.
ghost use Rattle.std.specs.Prelude.{◌≡◌, ◌≤◌, ◌++◌, true, false, length, drop, take, IfOk, IfErr};
ghost use Rattle.ldp_grammar.specs.{Octets.{two as two_of}, Spells.{IsFramed}, FirstFault.{FirstFault, IsMiscounted}};
ghost use Rattle.ldp_codec.specs.{Part.{joined}, Walk.{HasCountedLength}};

use crate::Part;
use ldp_grammar::{Cause, Fault, LEAST_LENGTH, LENGTH_HEADER, LdpId, VERSION};
use net_values::Addr;

// The identifier of the sender.
#[inline(always)]
fn sender(bytes: Part<'_>) -> LdpId
    requires { 10 ≤ length (joined bytes) }
    ensures { result.router.0 ++ two_of result.space ≡ take 6 (drop 4 (joined bytes.entry)) }
{
    bytes.are_octets();
    let (_, id) = bytes.split_at(LENGTH_HEADER);
    LdpId {
        router: Addr([id.byte(0), id.byte(1), id.byte(2), id.byte(3)]),
        space: id.two(4),
    }
}

// Whether the PDU Length is in range and counts the octets behind it.
#[inline(always)]
fn has_length(bytes: Part<'_>, max: u16) -> bool
    ensures right { result ≡ true → HasCountedLength (joined bytes.entry) max }
    ensures wrong { result ≡ false → IsMiscounted (joined bytes.entry) max }
{
    if bytes.len() < LENGTH_HEADER {
        return false;
    }
    let len = bytes.two(2);
    LEAST_LENGTH <= len && len <= max && bytes.len() == LENGTH_HEADER + len as usize
}

/// The sender of a PDU whose header is right.
#[tactic(auto, using(crate::proofs::HeaderLemmas::framed))]
#[inline(always)]
pub fn read_header(bytes: Part<'_>, max: u16) -> Result<LdpId, Fault>
    requires { max ≤ 4096 }
    ensures framed { IfOk result (λ id. IsFramed (joined bytes.entry) max (id.router.0 ++ two_of id.space) (drop 10 (joined bytes.entry))) }
    ensures fault { IfErr result (FirstFault (joined bytes.entry) max) }
{
    bytes.are_octets();
    if 2 <= bytes.len() && bytes.two(0) != VERSION {
        return Err(Fault {
            place: 0,
            cause: Cause::Version,
        });
    }
    if !has_length(bytes, max) {
        return Err(Fault {
            place: 2,
            cause: Cause::PduLength,
        });
    }
    Ok(sender(bytes))
}
