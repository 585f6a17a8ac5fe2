//! Reading interface parameters.
ghost use Rattle.std.specs.Prelude.{◌≤◌, length, IfOk, IfErr, IfSome, IfNone};
ghost use Rattle.pw_tlvs.specs.declared.field_fault.FieldFault.{FieldFault as FaultOf};
ghost use Rattle.pw_tlvs.specs.{declared.registry.Registry.TheVariants.{InterfaceParameter}, Faults.{IsFirstIn}, SubTlvs.{IsNamed}};
ghost use Rattle.pw_tlvs.specs.Fec.{AreParameters};

use crate::found_params::FoundParams;
use crate::met_params::MetParams;
use crate::registry::Registry;
use crate::sub_tlv::first_sub_tlv;
use crate::sub_tlv_place::SubTlvPlace;
use crate::{FieldFault, IfParams};

/// The interface parameters that the octets are, or their first fault (RFC 8077 section 6.4). Twelve octets of the
/// value stand before them, so they begin at place 12.
pub fn read_parameters(octets: &[u8]) -> Result<IfParams, FieldFault>
    requires { length octets.now ≤ 65523 }
    ensures ok { IfOk result (AreParameters octets.now) }
    ensures fault { IfErr result (IsFirstIn (IsNamed InterfaceParameter 12 octets.now)) }
{
    let mut found = FoundParams::none();
    let mut at = 0;
    'reading: while at < octets.len() {
        let (_, rest) = octets.split_at(at);
        let place = SubTlvPlace {
            at: 12 + at as u16,
            again: found.has(rest[0]),
        };
        let (kind, value) = first_sub_tlv(Registry::InterfaceParameter, place, rest)?;
        found = found.with(kind, value);
        at += 2 + value.len();
    }
    Ok(found.params())
}

/// The first fault of interface parameters, as `read_parameters` answers it; `None` where they have none.
pub fn parameters_fault(octets: &[u8]) -> Option<FieldFault>
    requires { length octets.now ≤ 65523 }
    ensures fault { IfSome result (IsFirstIn (IsNamed InterfaceParameter 12 octets.now)) }
    ensures none { IfNone result ((fault : FaultOf) → IsNamed InterfaceParameter 12 octets.now fault → ⊥) }
{
    let mut met = MetParams::none();
    let mut at = 0;
    'passing: while at < octets.len() {
        let (_, rest) = octets.split_at(at);
        let place = SubTlvPlace {
            at: 12 + at as u16,
            again: met.has(rest[0]),
        };
        let (kind, value) = match first_sub_tlv(Registry::InterfaceParameter, place, rest) {
            Ok(sub_tlv) => sub_tlv,
            Err(fault) => return Some(fault),
        };
        met = met.with(kind);
        at += 2 + value.len();
    }
    None
}
