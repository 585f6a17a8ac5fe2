//! The first fault of the value of a FEC TLV.
ghost use Rattle.std.specs.Prelude.{◌≡◌, ◌≤◌, ◌↔◌, length, Some, IfSome, IfNone};
ghost use Rattle.pw_tlvs.specs.{declared.field_fault.FieldFault.{FieldFault as FaultOf}, Faults.{IsFirstIn, IsInside}, Fec.{IsFecFault}};

use crate::FieldFault;
use crate::fec_reading::foreign_of;
use crate::parameters::parameters_fault;

// The first fault of the octets, or none: of such an answer `exact_fault` shows what `fec_fault` promises.
#[tactic(auto, using(crate::proofs::FecLemmas::foreign_faultless, crate::proofs::FecLemmas::element_bare, crate::proofs::FecLemmas::element_first))]
fn fault_of(value: &[u8]) -> Option<FieldFault>
    ensures fault { IfSome result (IsFirstIn (IsFecFault value.now)) }
    ensures none { IfNone result ((fault : FaultOf) → IsFecFault value.now fault → ⊥) }
{
    match foreign_of(value) {
        Ok(Some(_)) => None,
        Ok(None) if value.len() < 12 => None,
        Ok(None) => parameters_fault(value.split_at(12).1),
        Err(fault) => Some(fault),
    }
}

/// The first fault of the value of a FEC TLV, with which `read_fec` refuses it; `None` where it is a value, which is not
/// made here. The value has at most 65,535 octets.
pub fn fec_fault(value: &[u8]) -> Option<FieldFault>
    requires { length value.now ≤ 65535 }
    ensures fault { (fault : FaultOf) → (result ≡ Some fault) ↔ IsFirstIn (IsFecFault value.now) fault }
    ensures place { IfSome result (IsInside value.now) }
{
    fault_of(value)
}
