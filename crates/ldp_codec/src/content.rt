//! What the values of TLVs hold, and the first fault of it.
ghost use Rattle.std.specs.Prelude.{◌≡◌, ◌≤◌, ◌<◌, ◌+◌, ◌^◌, None, true, false, length, Ok, Err, IfSome};
ghost use Rattle.pw_tlvs.specs.Faults.{IsFirstIn, IsInside, fault_place};
ghost use Rattle.ldp_grammar.specs.{FirstFault.{ContentFault, fault_in}, Layouts.{fits}, Tlvs.{HasContent}};
ghost use Rattle.ldp_codec.specs.Walk.{HasContents, HasLength, IsFirstContent, ReadsForeign};

use crate::numbers::four;
use crate::tlv_search::find_value;
use ldp_grammar::{Cause, FEC, Fault, TLV_HEADER};
use net_values::{Field, Label};
use pw_tlvs::{FecValue, FieldFault, fec_fault, read_fec, read_point};

// Whether the first FEC in a message's octets is no single PWid element.
#[cold]
#[inline(never)]
fn has_foreign(body: &[u8]) -> bool
    ensures { ReadsForeign body.now result }
{
    let Some(value) = find_value(FEC, body) else {
        return false;
    };
    match read_fec(value) {
        Ok(FecValue::Foreign(_)) => true,
        Ok(FecValue::Pw(_)) => false,
        Err(_) => false,
    }
}

// The fault of the value of a Generic Label TLV in a message with these octets. A number that is no label is looked at
// where the first FEC is no foreign one, which is looked for only then.
#[tactic(auto, using(crate::proofs::ContentLemmas::label_first))]
fn label_fault(body: &[u8], value: &[u8]) -> Option<FieldFault>
    requires { length value.now ≡ 4 }
    ensures fault { IfSome result (IsFirstIn (ContentFault body.now Field.Label value.now)) }
    ensures none { result ≡ None → HasContent body.now Field.Label value.now }
    ensures near { IfSome result (IsInside value.now) }
{
    if Label::new(four(value, 0)).is_some() {
        return None;
    }
    if has_foreign(body) {
        return None;
    }
    Some(FieldFault::Value {
        at: 0,
        field: Field::Label,
    })
}

// The first fault of the value of a TLV, whose Length fits, in a message with these octets.
fn content_fault(body: &[u8], field: Field, value: &[u8]) -> Option<FieldFault>
    requires few { length value.now ≤ 65535 }
    requires fitting { fits field value.now ≡ true }
    ensures fault { IfSome result (IsFirstIn (ContentFault body.now field value.now)) }
    ensures none { result ≡ None → HasContent body.now field value.now }
    ensures near { IfSome result (IsInside value.now) }
{
    match field {
        Field::Fec => fec_fault(value),
        Field::Label => label_fault(body, value),
        Field::Point => match read_point(value) {
            Ok(_) => None,
            Err(fault) => Some(fault),
        },
        _ => None,
    }
}

// The fault of the value of a TLV, counted from the TLV.
fn placed(field: Field, fault: FieldFault) -> Fault
    requires { 4 + fault_place fault < 2 ^ 16 }
    ensures { result ≡ fault_in field fault }
{
    match fault {
        FieldFault::Size => Fault {
            place: 2,
            cause: Cause::TlvValue(field),
        },
        FieldFault::Value { at, field } => Fault {
            place: TLV_HEADER as u16 + at,
            cause: Cause::TlvValue(field),
        },
        FieldFault::Repeated { at, field } => Fault {
            place: TLV_HEADER as u16 + at,
            cause: Cause::Repeated(field),
        },
    }
}

/// The first fault of the value of a TLV of this field, where the message with these octets lists it; its Length fits.
pub fn wrong_content(list: Option<Field>, body: &[u8], value: &[u8]) -> Option<Fault>
    requires few { 4 + length value.now < 65536 }
    requires fitting { HasLength list value.now }
    ensures fault { IfSome result (IsFirstContent body.now list value.now) }
    ensures none { result ≡ None → HasContents body.now list value.now }
    ensures near { IfSome result (λ fault. fault.place < 4 + length value.now) }
{
    let field = list?;
    let fault = content_fault(body, field, value)?;
    Some(placed(field, fault))
}
