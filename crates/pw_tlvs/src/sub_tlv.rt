//! One sub-TLV at the front of octets.
ghost use Rattle.std.specs.Prelude.{◌≡◌, ◌≤◌, ◌<◌, ◌+◌, ◌++◌, ℕ, List, length, drop, slice_index, true, false, Some, IfSome, IfNone, IfOk, IfErr, IsSome};
ghost use Rattle.pw_tlvs.specs.declared.registry.Registry.TheVariants.{SwitchingPointPart};
ghost use Rattle.pw_tlvs.specs.SubTlvs.{SubTlv, counted_in, spell, sub_tlv_row as the_row, row_fits, allows, lone_fault as the_lone_fault, outside_fault as the_outside_fault, IsOutside, IsGood, IsFirstWrong, Stood};

use crate::FieldFault;
use crate::registry::Registry;
use crate::sub_tlv_place::SubTlvPlace;
use crate::sub_tlv_row::{SubTlvRow, row_of};
use byteorder::{BigEndian, ByteOrder};
use net_values::Field;

/// How many octets a length counts beside the value.
pub fn counted(registry: Registry) -> usize
    ensures { result ≡ counted_in registry }
{
    match registry {
        Registry::InterfaceParameter => 2,
        Registry::SwitchingPointPart => 0,
    }
}

// The fault of one last octet that stands alone.
fn lone_fault(registry: Registry, at: u16) -> FieldFault
    ensures { result ≡ the_lone_fault registry at }
{
    match registry {
        Registry::InterfaceParameter => FieldFault::Value {
            at,
            field: Field::Parameter,
        },
        Registry::SwitchingPointPart => FieldFault::Value {
            at,
            field: Field::Point,
        },
    }
}

// The fault of a length that counts too little or too much.
fn outside_fault(registry: Registry, at: u16) -> FieldFault
    requires { at < 65535 }
    ensures { result ≡ the_outside_fault registry at }
{
    match registry {
        Registry::InterfaceParameter => FieldFault::Value {
            at: at + 1,
            field: Field::Parameter,
        },
        Registry::SwitchingPointPart => FieldFault::Value {
            at,
            field: Field::Point,
        },
    }
}

// Whether the length of the sub-TLV at the front counts too little or too much.
fn is_outside(registry: Registry, rest: &[u8]) -> bool
    requires { 2 ≤ length rest.now }
    ensures yes { result ≡ true → IsOutside registry rest.now }
    ensures no { result ≡ false → IsOutside registry rest.now → ⊥ }
{
    let length = rest[1] as usize;
    length < counted(registry) || counted(registry) + rest.len() < 2 + length
}

// The value of the sub-TLV at the front.
fn value_at(registry: Registry, rest: &[u8]) -> &[u8]
    requires header { 2 ≤ length rest.now }
    requires inside { IsOutside registry rest.now → ⊥ }
    ensures spelled { rest.now ≡ spell registry (record { kind = slice_index rest.now 0; value = result.now }) ++ drop (2 + length result.now) rest.now }
    ensures counts { slice_index rest.now 1 ≡ counted_in registry + length result.now }
{
    let size = rest[1] as usize - counted(registry);
    rest.split_at(2).1.split_at(size).0
}

// Whether the value is one that its type has.
fn is_allowed(registry: Registry, kind: u8, value: &[u8]) -> bool
    requires { IfSome (the_row registry kind) (λ row. row_fits row (counted_in registry + length value.now) ≡ true) }
    ensures { result ≡ allows registry kind value.now }
{
    match (registry, kind) {
        (Registry::InterfaceParameter, 0x06) => BigEndian::read_u16(value) <= 4095,
        _ => true,
    }
}

// The first fault of a sub-TLV of a known type. `outside` says whether its length counts too little or too much.
fn known_fault(
    registry: Registry,
    place: SubTlvPlace,
    row: SubTlvRow,
    outside: bool,
    rest: &[u8],
) -> Option<FieldFault>
    requires header { 2 ≤ length rest.now }
    requires within { place.at + 2 < 65536 }
    requires row { the_row registry (slice_index rest.now 0) ≡ Some row }
    requires yes { outside ≡ true → IsOutside registry rest.now }
    requires no { outside ≡ false → IsOutside registry rest.now → ⊥ }
    requires part { (registry ≡ SwitchingPointPart) → outside ≡ false }
    ensures first { IfSome result (λ fault. (before : List SubTlv) → Stood registry before (slice_index rest.now 0) place.again → IsFirstWrong registry before rest.now place.at fault) }
    ensures fresh { IfNone result (place.again ≡ false) }
    ensures inside { IfNone result (outside ≡ false) }
    ensures good { IfNone result ((s : SubTlv) (more : List ℕ) → rest.now ≡ spell registry s ++ more → IsGood registry s) }
{
    let (at, field) = (place.at, row.field);
    if place.again {
        return Some(FieldFault::Repeated { at, field });
    }
    if outside {
        return Some(outside_fault(registry, at));
    }
    if !row.fits(rest[1]) {
        return Some(FieldFault::Value { at: at + 1, field });
    }
    if !is_allowed(registry, rest[0], value_at(registry, rest)) {
        return Some(FieldFault::Value { at: at + 2, field });
    }
    None
}

// The first fault of the sub-TLV at the front.
fn fault_at(registry: Registry, place: SubTlvPlace, rest: &[u8]) -> Option<FieldFault>
    requires some { 1 ≤ length rest.now }
    requires within { place.at + length rest.now < 65536 }
    ensures first { IfSome result (λ fault. (before : List SubTlv) → Stood registry before (slice_index rest.now 0) place.again → IsFirstWrong registry before rest.now place.at fault) }
    ensures header { IfNone result (2 ≤ length rest.now) }
    ensures inside { IfNone result (IsOutside registry rest.now → ⊥) }
    ensures fresh { IfNone result (IsSome (the_row registry (slice_index rest.now 0)) → place.again ≡ false) }
    ensures good { IfNone result ((s : SubTlv) (more : List ℕ) → rest.now ≡ spell registry s ++ more → IsGood registry s) }
{
    if rest.len() == 1 {
        return Some(lone_fault(registry, place.at));
    }
    let outside = is_outside(registry, rest);
    if outside && matches!(registry, Registry::SwitchingPointPart) {
        return Some(outside_fault(registry, place.at));
    }
    match row_of(registry, rest[0]) {
        Some(row) => known_fault(registry, place, row, outside, rest),
        None if outside => Some(outside_fault(registry, place.at)),
        None => None,
    }
}

/// The type and the value of the sub-TLV at the front, or its first fault. The octets begin at the place.
pub fn first_sub_tlv(
    registry: Registry,
    place: SubTlvPlace,
    rest: &[u8],
) -> Result<(u8, &[u8]), FieldFault>
    requires some { 1 ≤ length rest.now }
    requires within { place.at + length rest.now < 65536 }
    ensures spelled { IfOk result (λ s. rest.now ≡ spell registry (record { kind = s.0; value = s.1.now }) ++ drop (2 + length s.1.now) rest.now) }
    ensures good { IfOk result (λ s. IsGood registry (record { kind = s.0; value = s.1.now })) }
    ensures kind { IfOk result (λ s. s.0 ≡ slice_index rest.now 0) }
    ensures fresh { IfOk result (λ s. IsSome (the_row registry s.0) → place.again ≡ false) }
    ensures fault { IfErr result (λ fault. (before : List SubTlv) → Stood registry before (slice_index rest.now 0) place.again → IsFirstWrong registry before rest.now place.at fault) }
{
    match fault_at(registry, place, rest) {
        Some(fault) => Err(fault),
        None => Ok((rest[0], value_at(registry, rest))),
    }
}
