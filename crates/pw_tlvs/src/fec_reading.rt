//! Reading the value of a FEC TLV.
ghost use Rattle.std.specs.Prelude.{◌≡◌, ◌≤◌, ◌<◌, ◌+◌, ◌⊎◌, ◌↔◌, ℕ, length, drop, Ok, Err, Some, None, IfOk, IfErr};
ghost use Rattle.pw_tlvs.specs.{declared.registry.Registry.TheVariants.{InterfaceParameter}, declared.fec_value.FecValue.{FecValue}};
ghost use Rattle.pw_tlvs.specs.{declared.fec_value.FecValue.TheVariants.{Foreign}, declared.field_fault.FieldFault.{FieldFault}};
ghost use Rattle.pw_tlvs.specs.{Faults.{IsFirstIn, IsInside}, SubTlvs.{IsNamed}};
ghost use Rattle.pw_tlvs.specs.Fec.{IsFecValue, IsFecFault, IsPwFec, IsPwid, IsInformation, IsTooShort, information_length};

use crate::parameters::read_parameters;
use crate::{FecValue, FieldFault, IfParams, PwFec};
use byteorder::{BigEndian, ByteOrder};
use net_values::Field;

/// The type of a PWid FEC element (RFC 8077 section 6.1).
pub const PWID: u8 = 0x80;

// The PW ID and the parameters that the information of an element is, or its first fault.
fn information_of(information: &[u8]) -> Result<(Option<u32>, IfParams), FieldFault>
    requires size { (length information.now ≡ 0) ⊎ (4 ≤ length information.now) }
    requires within { length information.now ≤ 255 }
    ensures ok { IfOk result (λ told. IsInformation information.now told.0 told.1) }
    ensures fault { IfErr result (IsFirstIn (IsNamed InterfaceParameter 12 (drop 4 information.now))) }
    ensures some { IfErr result (λ _. 4 ≤ length information.now) }
{
    if information.is_empty() {
        return Ok((None, IfParams::none()));
    }
    let (pw_id, octets) = information.split_at(4);
    match read_parameters(octets) {
        Ok(params) => Ok((Some(BigEndian::read_u32(information)), params)),
        Err(fault) => Err(fault),
    }
}

// The PWid FEC element that the octets are, or its first fault. Its information length fits.
fn element_of(value: &[u8]) -> Result<PwFec, FieldFault>
    requires begun { IsPwid value.now }
    requires long { IsTooShort (information_length value.now) → ⊥ }
    requires whole { length value.now ≡ 8 + information_length value.now }
    ensures ok { IfOk result (IsPwFec value.now) }
    ensures fault { IfErr result (IsFirstIn (IsFecFault value.now)) }
{
    let word = BigEndian::read_u16(value.split_at(1).1);
    let group = BigEndian::read_u32(value.split_at(4).1);
    let (pw_id, params) = information_of(value.split_at(8).1)?;
    Ok(PwFec {
        c: word >= 0x8000,
        kind: word % 0x8000,
        group,
        pw_id,
        params,
    })
}

/// The first octet of what is not looked into: of another element than PWid, or of one that further octets follow. `None` is one
/// PWid element, whose information length counts all behind it. Or else the first fault of the octets.
pub fn foreign_of(value: &[u8]) -> Result<Option<u8>, FieldFault>
    ensures foreign { (first : ℕ) → result ≡ Ok (Some first) → IsFecValue value.now (Foreign first) }
    ensures begun { result ≡ Ok None → IsPwid value.now }
    ensures long { result ≡ Ok None → IsTooShort (information_length value.now) → ⊥ }
    ensures whole { result ≡ Ok None → length value.now ≡ 8 + information_length value.now }
    ensures within { result ≡ Ok None → information_length value.now ≤ 255 }
    ensures fault { IfErr result (IsFirstIn (IsFecFault value.now)) }
{
    if value.is_empty() {
        return Err(FieldFault::Size);
    }
    if value[0] != PWID {
        return Ok(Some(value[0]));
    }
    if value.len() < 8 {
        return Err(FieldFault::Size);
    }
    let count = value[3] as usize;
    if 1 <= count && count <= 3 || value.len() < 8 + count {
        return Err(FieldFault::Value {
            at: 3,
            field: Field::InfoLength,
        });
    }
    if value.len() > 8 + count {
        return Ok(Some(PWID));
    }
    Ok(None)
}

// The value that the octets are, or their first fault: of such an answer `exact_ok` and `exact_err` show what `read_fec` promises.
fn fec_of(value: &[u8]) -> Result<FecValue, FieldFault>
    ensures ok { IfOk result (IsFecValue value.now) }
    ensures fault { IfErr result (IsFirstIn (IsFecFault value.now)) }
{
    match foreign_of(value) {
        Ok(Some(first)) => Ok(FecValue::Foreign(first)),
        Ok(None) => Ok(FecValue::Pw(element_of(value)?)),
        Err(fault) => Err(fault),
    }
}

/// The value of a FEC TLV that the octets are, or their first fault (RFC 5036 section 3.4.1, RFC 8077 section
/// 6.1). The value has at most 65,535 octets.
///
/// It is `Foreign` where the octets begin with another element than PWid, or where further octets follow a PWid
/// element; then nothing behind the first octet, or behind the information length, is looked at. Else it is a
/// PWid element with its parameters in any order, of which those of unknown types are ignored. `Size` comes
/// where there is no octet, or fewer than eight of a PWid element; `Value` where the information length does
/// not fit, or a parameter's length or VLAN ID; `Repeated` where a known parameter comes again. Of several
/// faults it is the one of least place.
pub fn read_fec(value: &[u8]) -> Result<FecValue, FieldFault>
    requires { length value.now ≤ 65535 }
    ensures value { (fec : FecValue) → (result ≡ Ok fec) ↔ IsFecValue value.now fec }
    ensures fault { (fault : FieldFault) → (result ≡ Err fault) ↔ IsFirstIn (IsFecFault value.now) fault }
    ensures place { IfErr result (IsInside value.now) }
{
    fec_of(value)
}
