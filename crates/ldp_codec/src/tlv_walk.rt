//! The walk over the TLVs of a message.
ghost use Rattle.std.specs.Prelude.{◌≡◌, ◌≤◌, ◌<◌, List, Some, None, false, length, IfOk, IfErr, IfSome};
ghost use Rattle.net_values.specs.declared.field.Field.{Field as FieldOf};
ghost use Rattle.ldp_grammar.specs.{Layouts.{fits, listed, most}, FirstFault.{IsFirst, IsFirstTlvFault, NamesTlvs}, Rows.{row_of}};
ghost use Rattle.ldp_grammar.specs.Tlvs.{Tlv, IsJoined, MayComeAgain, count_of, type_in};
ghost use Rattle.ldp_codec.specs.{FieldSet.{HoldsListed, IsPutIn, has}, Views.{AreSound}, Walk.{HasLength, IsTaken}};

use crate::content::wrong_content;
use crate::field_set::FieldSet;
use crate::numbers::two;
use crate::tlv::{TYPE_LIMIT, split_tlv};
use crate::tlv_search::count_tlvs;
use ldp_grammar::{Cause, Fault, MessageKind, TLV_HEADER, is_fitting, most_of};
use net_values::Field;

// The field of a TLV of this type, where the message has as many before as it may. Only where the set has its field are those before
// counted.
fn repeated(list: Option<Field>, tlv: u16, before: &[u8], met: &FieldSet) -> Option<Field>
    requires met { (ts : List Tlv) (field : FieldOf) → IsJoined before.now ts → list ≡ Some field → has met.now field ≡ false → count_of tlv ts ≡ 0 }
    ensures full { (ts : List Tlv) → IsJoined before.now ts → IfSome result (λ field. (list ≡ Some field) × (most field ≤ count_of tlv ts)) }
    ensures room { (ts : List Tlv) → IsJoined before.now ts → result ≡ None → MayComeAgain list (count_of tlv ts) }
{
    let field = list?;
    if !met.contains(field) {
        return None;
    }
    if count_tlvs(tlv, before) < most_of(field) {
        return None;
    }
    Some(field)
}

// The field of a TLV, where its Length does not fit.
fn misfit(list: Option<Field>, value: &[u8]) -> Option<Field>
    ensures misfit { IfSome result (λ field. (list ≡ Some field) × (fits field value.now ≡ false)) }
    ensures len { result ≡ None → HasLength list value.now }
{
    let field = list?;
    if is_fitting(field, value) {
        return None;
    }
    Some(field)
}

// Puts a field into the set, where there is one.
fn put_in(met: &mut FieldSet, list: Option<Field>)
    ensures { IsPutIn list met.old met.new }
{
    if let Some(field) = list {
        met.insert(field);
    }
}

// The word and the size of the TLV in front, behind others of the message with these octets, and its field where the message lists
// it. A label is not looked at where the first FEC is foreign.
#[tactic(auto, using(crate::proofs::WalkLemmas::taken_here, crate::proofs::WalkLemmas::misfit_here, crate::proofs::WalkLemmas::listed_in, ldp_grammar::proofs::TlvLemmas::short_tlv, ldp_grammar::proofs::TlvLemmas::long_tlv, ldp_grammar::proofs::TlvLemmas::repeated_tlv))]
fn take_tlv(
    kind: MessageKind,
    body: &[u8],
    before: &[u8],
    rest: &[u8],
    met: &FieldSet,
) -> Result<(u16, usize, Option<Field>), Fault>
    requires some { 0 < length rest.now }
    requires few { length rest.now < 65536 }
    requires met { (ts : List Tlv) → IsJoined before.now ts → HoldsListed (row_of kind) met.now ts }
    ensures taken { (ts : List Tlv) → IsJoined before.now ts → IfOk result (λ r. IsTaken (row_of kind) body.now ts rest.now r.0 r.1) }
    ensures list { IfOk result (λ r. r.2 ≡ listed (row_of kind) (type_in r.0)) }
    ensures some { IfOk result (λ r. 0 < r.1) }
    ensures within { IfOk result (λ r. r.1 ≤ length rest.now) }
    ensures fault { (ts : List Tlv) → IsJoined before.now ts → IfErr result (IsFirstTlvFault (row_of kind) body.now ts rest.now) }
    ensures near { IfErr result (λ fault. fault.place < length rest.now) }
{
    if rest.len() < TLV_HEADER {
        return Err(fault_at(0, Cause::TlvLength));
    }
    let tlv = two(rest, 0) % TYPE_LIMIT;
    let list = kind.listed(tlv);
    if let Some(field) = repeated(list, tlv, before, met) {
        return Err(fault_at(0, Cause::Repeated(field)));
    }
    let Some((word, value, _)) = split_tlv(rest) else {
        return Err(fault_at(2, Cause::TlvLength));
    };
    if let Some(field) = misfit(list, value) {
        return Err(fault_at(2, Cause::TlvValue(field)));
    }
    if let Some(fault) = wrong_content(list, body, value) {
        return Err(fault);
    }
    Ok((word, TLV_HEADER + value.len(), list))
}

// A fault at a place.
fn fault_at(place: u16, cause: Cause) -> Fault
    ensures { result ≡ record { place = place; cause = cause } }
{
    Fault { place, cause }
}

/// Whether the octets behind the Message ID are TLVs without fault, or else their first fault, its place counted from the
/// first of them.
#[tactic(auto, using(crate::proofs::WalkLemmas::walked_more, crate::proofs::WalkLemmas::walk_fault, crate::proofs::WalkLemmas::walked_all, crate::proofs::WalkLemmas::walked_none, crate::proofs::FieldSetLemmas::holds_none, crate::proofs::FieldSetLemmas::holds_before))]
pub fn walk_tlvs(kind: MessageKind, body: &[u8]) -> Result<(), Fault>
    requires { length body.now < 65536 }
    ensures sound { IfOk result (λ _. AreSound (row_of kind) body.now) }
    ensures fault { IfErr result (IsFirst (NamesTlvs (row_of kind) body.now)) }
    ensures near { IfErr result (λ fault. fault.place < length body.now) }
{
    let mut met = FieldSet::empty();
    let mut at = 0;
    'walking: while at < body.len() {
        let (before, rest) = body.split_at(at);
        let (_, size, list) = match take_tlv(kind, body, before, rest, &met) {
            Ok(taken) => taken,
            Err(fault) => return Err(fault.behind(at as u16)),
        };
        put_in(&mut met, list);
        at += size;
    }
    Ok(())
}
