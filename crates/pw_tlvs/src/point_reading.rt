//! Reading switching points.
ghost use Rattle.std.specs.Prelude.{◌≡◌, ◌≤◌, ◌++◌, ◌∷◌, ◌↔◌, [], List, length, Ok, Err, IfOk, IfErr, IsSome};
ghost use Rattle.pw_tlvs.specs.{declared.registry.Registry.TheVariants.{SwitchingPointPart}, declared.point.Point.{Point}};
ghost use Rattle.pw_tlvs.specs.{declared.field_fault.FieldFault.{FieldFault}, Faults.{IsFirstIn, IsInside}};
ghost use Rattle.pw_tlvs.specs.{SubTlvs.{SubTlv, IsGood, Stood, sub_tlv_row, values}, Point.{IsPoint, IsPointFault, address_of}};
ghost use Rattle.pw_tlvs.specs.Found.{PointSays};

use crate::registry::Registry;
use crate::sub_tlv::first_sub_tlv;
use crate::sub_tlv_place::SubTlvPlace;
use crate::{FieldFault, Point};
use byteorder::{BigEndian, ByteOrder};
use net_values::Addr;

// The address of four octets.
#[tactic(auto, using(crate::proofs::PointLemmas::four_octets))]
fn address(value: &[u8]) -> Addr
    requires { length value.now ≡ 4 }
    ensures { result ≡ address_of value.now }
{
    Addr([value[0], value[1], value[2], value[3]])
}

// Whether a part of the known type was told.
fn has(point: &Point, kind: u8) -> bool
    ensures { (subs : List SubTlv) → PointSays point.now subs → Stood SwitchingPointPart subs kind result }
{
    match kind {
        0x01 => point.pw_id.is_some(),
        0x03 => point.local.is_some(),
        0x04 => point.remote.is_some(),
        _ => false,
    }
}

// The same point with one more part, of which none of a known type was told.
fn with(point: Point, kind: u8, value: &[u8]) -> Point
    requires { IsGood SwitchingPointPart (record { kind = kind; value = value.now }) }
    ensures { (subs : List SubTlv) → PointSays point subs → (IsSome (sub_tlv_row SwitchingPointPart kind) → values kind subs ≡ []) → PointSays result (subs ++ record { kind = kind; value = value.now } ∷ []) }
{
    match kind {
        0x01 => Point {
            pw_id: Some(BigEndian::read_u32(value)),
            ..point
        },
        0x03 => Point {
            local: Some(address(value)),
            ..point
        },
        0x04 => Point {
            remote: Some(address(value)),
            ..point
        },
        _ => point,
    }
}

// The point that the octets are, or their first fault: of such an answer `exact_ok` and `exact_err` show what `read_point` promises.
fn point_of(value: &[u8]) -> Result<Point, FieldFault>
    requires { length value.now ≤ 65535 }
    ensures ok { IfOk result (IsPoint value.now) }
    ensures fault { IfErr result (IsFirstIn (IsPointFault value.now)) }
{
    let mut point = Point {
        pw_id: None,
        local: None,
        remote: None,
    };
    let mut at = 0;
    'reading: while at < value.len() {
        let (_, rest) = value.split_at(at);
        let place = SubTlvPlace {
            at: at as u16,
            again: has(&point, rest[0]),
        };
        let (kind, octets) = first_sub_tlv(Registry::SwitchingPointPart, place, rest)?;
        point = with(point, kind, octets);
        at += 2 + octets.len();
    }
    Ok(point)
}

/// The switching point that the octets are, or their first fault (RFC 6073 section 7.4). The value has at most
/// 65,535 octets.
///
/// The parts stand in any order; a description and parts of unknown types are ignored. `Value` comes where a
/// part's length is missing or reaches past the end, or is wrong for its type; `Repeated` where a part whose
/// meaning is kept comes again; `Size` never. Of several faults it is the one of least place.
pub fn read_point(value: &[u8]) -> Result<Point, FieldFault>
    requires { length value.now ≤ 65535 }
    ensures value { (point : Point) → (result ≡ Ok point) ↔ IsPoint value.now point }
    ensures fault { (fault : FieldFault) → (result ≡ Err fault) ↔ IsFirstIn (IsPointFault value.now) fault }
    ensures place { IfErr result (IsInside value.now) }
{
    point_of(value)
}
