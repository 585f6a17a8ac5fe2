//! The message that its octets behind the Message ID tell.
ghost use Rattle.std.specs.Prelude.{◌≡◌, ◌≤◌, ◌<◌, [], ℕ, true, false, Some, None, List, length, option_copied, IfOk, IfErr, IfSome};
ghost use Rattle.pw_tlvs.specs.Fec.{IsFecValue};
ghost use Rattle.ldp_grammar.specs.declared.message_kind.MessageKind.{MessageKind};
ghost use Rattle.ldp_grammar.specs.{Rows.{row_of, type_of, is_in, fec, label, address_list}, Layouts.{listed}};
ghost use Rattle.ldp_grammar.specs.Tlvs.{Tlv, IsFaultless, IsJoined, IsReason, HasValue, OfBoth, all_there, fec_reason, fec_value, first_unknown, missing as missing_in, value_of};
ghost use Rattle.ldp_grammar.specs.Spells.{IsRead, Means};
ghost use Rattle.ldp_grammar.specs.declared.message.Message.TheVariants as message;
ghost use Rattle.ldp_grammar.specs.Values.{IsAddressList, IsNumber};
ghost use Rattle.ldp_codec.specs.{Views.{AreSound}, Walk.{HasElement, IsComplete, element_in}};

use crate::numbers::four;
use crate::points::points;
use crate::tlv_index::TlvIndex;
use crate::tlv_value::{further, further_kept, needed};
use crate::tlvs::{HelloParams, RequestId};
use crate::values::{address_list, addresses};
use ldp_grammar::{
    ADDRESS_LIST, AddressList, FEC, LABEL, Message, MessageKind, Why, field_of_type,
};
use net_values::{Field, Label, NoMemory};
use pw_tlvs::{FecValue, PwFec, read_fec};
use std::alloc::Global;

// Whether there are TLVs of all these types.
fn has_all(kinds: &[u16], body: &TlvIndex<'_>) -> bool
    ensures all { (ts : List Tlv) → IsJoined body.now ts → result ≡ all_there kinds.now ts }
{
    'looking: for tlv in kinds {
        if body.lacks(*tlv) {
            return false;
        }
    }
    true
}

// The first TLV that is missing.
#[tactic(auto, using(crate::proofs::ReasonLemmas::instead_is, crate::proofs::ReasonLemmas::missing_none, crate::proofs::ReasonLemmas::missing_first))]
fn missing(kind: MessageKind, body: &TlvIndex<'_>) -> Option<Field>
    ensures missing { (ts : List Tlv) → IsJoined body.now ts → result ≡ missing_in (row_of kind) ts }
{
    let instead = kind.instead();
    if !instead.is_empty() && has_all(instead, body) {
        return None;
    }
    'looking: for tlv in kind.needed() {
        if body.lacks(*tlv) {
            return field_of_type(*tlv);
        }
    }
    None
}

// The FEC of a message without fault that lists one.
#[tactic(auto, using(crate::proofs::ReasonLemmas::fec_unlisted, crate::proofs::ReasonLemmas::fec_absent, crate::proofs::ReasonLemmas::fec_there))]
fn fec_of(kind: MessageKind, body: &TlvIndex<'_>) -> Option<FecValue>
    ensures told { (ts : List Tlv) → IsJoined body.now ts → IsFaultless (row_of kind) body.now ts → OfBoth (fec_value (row_of kind) ts) result IsFecValue }
{
    if kind.listed(FEC).is_none() {
        return None;
    }
    let value = body.value(FEC)?;
    match read_fec(value) {
        Ok(fec) => Some(fec),
        Err(_) => None,
    }
}

// Why a message with this FEC is not processed.
fn reason_of_fec(kind: MessageKind, fec: &Option<FecValue>) -> Option<Why>
    ensures { result ≡ fec_reason kind fec.now }
{
    match *fec {
        Some(FecValue::Pw(ref fec)) => match (kind, fec.pw_id) {
            (MessageKind::LabelMapping, None) => Some(Why::Missing(Field::Fec)),
            _ => None,
        },
        Some(FecValue::Foreign(first)) => Some(Why::UnknownFec(first)),
        None => None,
    }
}

// The first reason why the message with this FEC is not processed.
#[tactic(auto, using(crate::proofs::ReasonLemmas::reason_unknown, crate::proofs::ReasonLemmas::reason_missing, crate::proofs::ReasonLemmas::reason_last))]
fn reason_not(
    unknown: Option<u16>,
    kind: MessageKind,
    body: &TlvIndex<'_>,
    fec: &Option<FecValue>,
) -> Option<Why>
    ensures first { (ts : List Tlv) → IsJoined body.now ts → OfBoth (fec_value (row_of kind) ts) fec.now IsFecValue → unknown ≡ first_unknown (row_of kind) ts → IsReason kind ts result }
{
    if let Some(tlv) = unknown {
        return Some(Why::UnknownTlv(tlv));
    }
    if let Some(field) = missing(kind, body) {
        return Some(Why::Missing(field));
    }
    reason_of_fec(kind, fec)
}

// The PWid element that a FEC is.
fn element_in(fec: Option<FecValue>) -> Option<PwFec>
    ensures { result ≡ element_in fec }
{
    match fec {
        Some(FecValue::Pw(fec)) => Some(fec),
        Some(FecValue::Foreign(_)) => None,
        None => None,
    }
}

/// The PWid element of a message without fault that is processed, where it has a FEC, which is read here once and for all; or
/// else the first reason why it is not processed.
pub fn processable(
    unknown: Option<u16>,
    kind: MessageKind,
    body: &TlvIndex<'_>,
) -> Result<Option<PwFec>, Why>
    requires sound { AreSound (row_of kind) body.now }
    requires first { (ts : List Tlv) → IsJoined body.now ts → unknown ≡ first_unknown (row_of kind) ts }
    ensures complete { IfOk result (λ _. IsComplete kind body.now) }
    ensures element { IfOk result (HasElement kind body.now) }
    ensures unprocessed { IfErr result (λ why. (id : ℕ) → IsRead kind id body.now (message.Unprocessed id (type_of kind) why)) }
{
    let fec = fec_of(kind, body);
    match reason_not(unknown, kind, body, &fec) {
        Some(why) => Err(why),
        None => Ok(element_in(fec)),
    }
}

/// The value of a TLV that the message needs.
pub fn needed_value<'a>(kind: MessageKind, tlv: u16, body: &TlvIndex<'a>) -> &'a [u8]
    requires complete { IsComplete kind body.now }
    requires needed { is_in tlv (row_of kind).needed ≡ true }
    requires alone { (row_of kind).instead ≡ [] }
    ensures value { (ts : List Tlv) → IsJoined body.now ts → value_of tlv ts ≡ Some result.now }
    ensures fits { HasValue body.now (listed (row_of kind) tlv) result.now }
    ensures few { length result.now ≤ 65535 }
{
    body.value(tlv).unwrap()
}

/// The value of a TLV that the message may have.
pub fn further_value<'a>(kind: MessageKind, tlv: u16, body: &TlvIndex<'a>) -> Option<&'a [u8]>
    requires complete { IsComplete kind body.now }
    ensures value { (ts : List Tlv) → IsJoined body.now ts → option_copied result ≡ value_of tlv ts }
    ensures fits { IfSome result (λ value. HasValue body.now (listed (row_of kind) tlv) value.now) }
    ensures few { IfSome result (λ value. length value.now ≤ 65535) }
{
    body.value(tlv)
}

// The label, where there is one.
#[tactic(auto, using(crate::proofs::ReasonLemmas::label_is, crate::proofs::ReasonLemmas::label_length))]
fn label_of(kind: MessageKind, body: &TlvIndex<'_>) -> Option<Label>
    requires complete { IsComplete kind body.now }
    requires is_listed { listed (row_of kind) label ≡ Some Field.Label }
    requires with_fec { listed (row_of kind) fec ≡ Some Field.Fec }
    ensures label { (ts : List Tlv) → IsJoined body.now ts → OfBoth (value_of label ts) result IsNumber }
{
    match further_value(kind, LABEL, body) {
        Some(value) => Label::new(four(value, 0)),
        None => None,
    }
}

// The processed Hello.
fn hello(id: u32, body: &TlvIndex<'_>) -> Message
    requires { IsComplete MessageKind.Hello body.now }
    ensures means { (ts : List Tlv) → IsJoined body.now ts → Means MessageKind.Hello id ts result }
{
    let params: HelloParams = needed(MessageKind::Hello, body);
    Message::Hello {
        id,
        hold: params.hold,
        targeted: params.targeted,
        request: params.request,
        transport: further(MessageKind::Hello, body),
    }
}

// The processed Address.
fn address(alloc: Global, id: u32, body: &TlvIndex<'_>) -> Result<Message, NoMemory>
    requires { IsComplete MessageKind.Address body.now }
    ensures means { IfOk result (λ m. (ts : List Tlv) → IsJoined body.now ts → Means MessageKind.Address id ts m) }
{
    let value = needed_value(MessageKind::Address, ADDRESS_LIST, body);
    let (family, octets) = addresses(alloc, value)?;
    Ok(Message::Address { id, family, octets })
}

// The addresses that are withdrawn, where they are told.
fn withdrawn(alloc: Global, body: &TlvIndex<'_>) -> Result<Option<AddressList>, NoMemory>
    requires { IsComplete MessageKind.AddressWithdraw body.now }
    ensures list { IfOk result (λ addresses. (ts : List Tlv) → IsJoined body.now ts → OfBoth (value_of address_list ts) addresses IsAddressList) }
{
    match further_value(MessageKind::AddressWithdraw, ADDRESS_LIST, body) {
        Some(value) => Ok(Some(address_list(alloc, value)?)),
        None => Ok(None),
    }
}

// The processed Address Withdraw.
fn address_withdraw(
    alloc: Global,
    id: u32,
    body: &TlvIndex<'_>,
    element: Option<PwFec>,
) -> Result<Message, NoMemory>
    requires complete { IsComplete MessageKind.AddressWithdraw body.now }
    requires element { HasElement MessageKind.AddressWithdraw body.now element }
    ensures means { IfOk result (λ m. (ts : List Tlv) → IsJoined body.now ts → Means MessageKind.AddressWithdraw id ts m) }
{
    let addresses = withdrawn(alloc, body)?;
    let macs = further_kept(alloc, MessageKind::AddressWithdraw, body)?;
    Ok(Message::AddressWithdraw {
        id,
        addresses,
        fec: element,
        macs,
    })
}

// The processed Label Mapping.
#[tactic(auto, using(crate::proofs::ReasonLemmas::of_value))]
fn label_mapping(id: u32, body: &TlvIndex<'_>, element: Option<PwFec>) -> Message
    requires complete { IsComplete MessageKind.LabelMapping body.now }
    requires element { HasElement MessageKind.LabelMapping body.now element }
    ensures means { (ts : List Tlv) → IsJoined body.now ts → Means MessageKind.LabelMapping id ts result }
{
    Message::LabelMapping {
        id,
        fec: element.unwrap(),
        label: label_of(MessageKind::LabelMapping, body).unwrap(),
        pw_status: further(MessageKind::LabelMapping, body),
        points: points(body),
    }
}

// The processed Label Withdraw.
#[tactic(auto, using(crate::proofs::ReasonLemmas::of_value))]
fn label_withdraw(id: u32, body: &TlvIndex<'_>, element: Option<PwFec>) -> Message
    requires complete { IsComplete MessageKind.LabelWithdraw body.now }
    requires element { HasElement MessageKind.LabelWithdraw body.now element }
    ensures means { (ts : List Tlv) → IsJoined body.now ts → Means MessageKind.LabelWithdraw id ts result }
{
    Message::LabelWithdraw {
        id,
        fec: element.unwrap(),
        label: label_of(MessageKind::LabelWithdraw, body),
    }
}

// The processed Label Release.
#[tactic(auto, using(crate::proofs::ReasonLemmas::of_value))]
fn label_release(id: u32, body: &TlvIndex<'_>, element: Option<PwFec>) -> Message
    requires complete { IsComplete MessageKind.LabelRelease body.now }
    requires element { HasElement MessageKind.LabelRelease body.now element }
    ensures means { (ts : List Tlv) → IsJoined body.now ts → Means MessageKind.LabelRelease id ts result }
{
    Message::LabelRelease {
        id,
        fec: element.unwrap(),
        label: label_of(MessageKind::LabelRelease, body),
    }
}

// The processed Label Abort Request.
#[tactic(auto, using(crate::proofs::ReasonLemmas::of_value))]
fn label_abort(id: u32, body: &TlvIndex<'_>, element: Option<PwFec>) -> Message
    requires complete { IsComplete MessageKind.LabelAbort body.now }
    requires element { HasElement MessageKind.LabelAbort body.now element }
    ensures means { (ts : List Tlv) → IsJoined body.now ts → Means MessageKind.LabelAbort id ts result }
{
    let request: RequestId = needed(MessageKind::LabelAbort, body);
    Message::LabelAbort {
        id,
        fec: element.unwrap(),
        request: request.0,
    }
}

/// The processed message, with the PWid element that `processable` answered.
#[tactic(auto, using(crate::proofs::ReasonLemmas::of_value))]
pub fn processed(
    alloc: Global,
    kind: MessageKind,
    id: u32,
    body: &TlvIndex<'_>,
    element: Option<PwFec>,
) -> Result<Message, NoMemory>
    requires complete { IsComplete kind body.now }
    requires element { HasElement kind body.now element }
    ensures means { IfOk result (λ m. (ts : List Tlv) → IsJoined body.now ts → Means kind id ts m) }
{
    match kind {
        MessageKind::Notification => Ok(Message::Notification {
            id,
            status: needed(MessageKind::Notification, body),
            pw_status: further(MessageKind::Notification, body),
            fec: element,
        }),
        MessageKind::Hello => Ok(hello(id, body)),
        MessageKind::Initialization => Ok(Message::Initialization {
            id,
            params: needed(MessageKind::Initialization, body),
        }),
        MessageKind::KeepAlive => Ok(Message::KeepAlive { id }),
        MessageKind::Address => address(alloc, id, body),
        MessageKind::AddressWithdraw => address_withdraw(alloc, id, body, element),
        MessageKind::LabelMapping => Ok(label_mapping(id, body, element)),
        MessageKind::LabelRequest => Ok(Message::LabelRequest {
            id,
            fec: element.unwrap(),
        }),
        MessageKind::LabelWithdraw => Ok(label_withdraw(id, body, element)),
        MessageKind::LabelRelease => Ok(label_release(id, body, element)),
        MessageKind::LabelAbort => Ok(label_abort(id, body, element)),
    }
}
