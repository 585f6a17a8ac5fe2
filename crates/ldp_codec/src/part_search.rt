//! The TLVs of one type in octets that lie in two pieces.
ghost use Rattle.std.specs.Prelude.{◌≡◌, ◌≢◌, ◌++◌, ◌<◌, ◌+◌, ◌-◌, ℕ, List, None, option_map, IfSome};
ghost use Rattle.ldp_grammar.specs.Tlvs.{Tlv, IsJoined, IsTlv, spell_tlv, value_of};
ghost use Rattle.ldp_codec.specs.{Part.{joined}, Walk.{IsSplit}};

use crate::Part;
use crate::tlv::TYPE_LIMIT;
use ldp_grammar::TLV_HEADER;

// The word and the value of the TLV at the front, and the octets behind it; `None` exactly where none stands there whole.
#[tactic(auto, using(crate::proofs::TlvSplit::split_here, crate::proofs::TlvSplit::cut_short, crate::proofs::TlvSplit::cut_long))]
fn split_part(rest: Part<'_>) -> Option<(u16, Part<'_>, Part<'_>)>
    ensures whole { IfSome result (λ r. IsSplit (joined rest.entry) r.0 (joined r.1) (joined r.2)) }
    ensures none { (t : Tlv) (more : List ℕ) → IsTlv t → joined rest.entry ≡ spell_tlv t ++ more → result ≢ None }
{
    rest.are_octets();
    if rest.len() < TLV_HEADER {
        return None;
    }
    let word = rest.two(0);
    let len = rest.two(2) as usize;
    let (_, body) = rest.split_at(TLV_HEADER);
    if body.len() < len {
        return None;
    }
    let (value, more) = body.split_at(len);
    Some((word, value, more))
}

/// The value of the first TLV of a type, as far as the octets are TLVs.
#[tactic(auto, using(crate::proofs::SearchLemmas::seeks_first, crate::proofs::SearchLemmas::found_here, crate::proofs::SearchLemmas::sought_other, crate::proofs::SearchLemmas::sought_none))]
pub fn find_part(tlv: u16, octets: Part<'_>) -> Option<Part<'_>>
    ensures value { (ts : List Tlv) → IsJoined (joined octets.entry) ts → option_map joined result ≡ value_of tlv ts }
{
    let mut at = 0;
    'searching: while at < octets.len() {
        let (_, rest) = octets.split_at(at);
        let Some((word, value, _)) = split_part(rest) else {
            return None;
        };
        if word % TYPE_LIMIT == tlv {
            return Some(value);
        }
        at += TLV_HEADER + value.len();
    }
    None
}
