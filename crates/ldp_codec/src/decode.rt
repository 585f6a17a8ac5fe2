//! The PDU that octets spell.
ghost use Rattle.std.specs.Prelude.{◌≡◌, ◌≢◌, ◌≤◌, ◌++◌, Ok, Err, IfOk, IfErr, IsOk};
ghost use Rattle.ldp_grammar.specs.{declared.pdu.Pdu.{Pdu}, declared.fault.Fault.{Fault}, Spells.{Spells}, FirstFault.{FirstFault}};
ghost use Rattle.ldp_codec.specs.{Decoded.{IsUnlessNoMemory, TellsFault, refusal_of}, Part.{joined}, Stop.{StopsAt}, Views.{IsViewOf}};

use crate::pdu_view::view_part;
use crate::stop::Stop;
use crate::{DecodeFault, Part, PduView};
use ldp_grammar::Pdu;
use std::alloc::Global;

/// The PDU that the octets spell, lent from them, without any memory: the octets are `front` and those of `back` behind
/// them (RFC 5036 sections 3.1 and 3.3 to 3.5). `max` is the session's Max PDU Length, in octets. Where no PDU is spelled,
/// the answer is the first fault, as in `decode_pdu`.
#[tactic(auto, unfolding(crate::specs::Part::joined), using(crate::proofs::DecodeLemmas::viewed_faultless, crate::proofs::DecodeLemmas::tells_of))]
pub fn view_pdu<'a>(front: &'a [u8], back: &'a [u8], max: u16) -> Result<PduView<'a>, DecodeFault>
    requires least { 256 ≤ max }
    requires most { max ≤ 4096 }
    ensures viewed { IfOk result (IsViewOf (front.now ++ back.now) max) }
    ensures fault { IfErr result (TellsFault (FirstFault (front.now ++ back.now) max)) }
    ensures memory { result ≢ Err DecodeFault.NoMemory }
    ensures accepts { (pdu : Pdu) → Spells (front.now ++ back.now) max pdu → IsOk result }
    ensures refuses { (fault : Fault) → FirstFault (front.now ++ back.now) max fault → result ≡ Err (refusal_of fault) }
{
    match view_part(Part { front, back }, max) {
        Ok(view) => Ok(view),
        Err(fault) => Err(DecodeFault::from(fault)),
    }
}

/// The PDU that the octets spell, or why their reading stopped: at their first fault, or as memory was refused. It is
/// `decode_pdu` with a fault as the grammar has it, for a caller that keeps one. `max` is at most 4096.
#[tactic(auto, using(crate::proofs::DecodeLemmas::view_read))]
pub fn read_pdu(alloc: Global, bytes: &[u8], max: u16) -> Result<Pdu, Stop>
    requires { max ≤ 4096 }
    ensures spelled { IfOk result (Spells bytes.now max) }
    ensures fault { IfErr result (StopsAt (FirstFault bytes.now max)) }
{
    let view = view_part(Part::whole(bytes), max)?;
    Ok(view.read(alloc)?)
}

/// The PDU that the octets spell, all of them, where its PDU Length is at most `max` (RFC 5036 sections 3.1 and 3.3 to
/// 3.5, RFC 8077, RFC 4762 section 6.2, RFC 6073 section 7.4). `max` is the session's Max PDU Length, in octets. TLVs
/// may stand in any order, and messages of other types are not looked into. Where no PDU is spelled, the answer is the
/// first fault: of all that can be named for these octets the one of least place, and of two at one octet the one that
/// `FirstFault` ranks before.
pub fn decode_pdu(alloc: Global, bytes: &[u8], max: u16) -> Result<Pdu, DecodeFault>
    requires least { 256 ≤ max }
    requires most { max ≤ 4096 }
    ensures spelled { IfOk result (Spells bytes.now max) }
    ensures fault { IfErr result (TellsFault (FirstFault bytes.now max)) }
    ensures accepts { (pdu : Pdu) → Spells bytes.now max pdu → IsUnlessNoMemory result (Ok pdu) }
    ensures refuses { (fault : Fault) → FirstFault bytes.now max fault → IsUnlessNoMemory result (Err (refusal_of fault)) }
{
    match read_pdu(alloc, bytes, max) {
        Ok(pdu) => Ok(pdu),
        Err(stop) => Err(DecodeFault::from(stop)),
    }
}
