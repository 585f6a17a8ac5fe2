//! What enters at a circuit.
ghost use Rattle.std.specs.Prelude.{◌≡◌, ◌≤◌, ◌+◌, ◌++◌, length, take, drop, None, Ok, Err, IfOk, IfErr, IfSome, MatchResult, OnErr};
ghost use Rattle.net_base.specs.declared.trace.drop_cause.DropCause.TheVariants.{Down};
ghost use Rattle.net_base.specs.{plan.Places.{service_of}, trace.Frame.{inner as inner_of, untagged}, trace.Isolated.{inner_at, mtu_by}};
ghost use Rattle.eth_encap.specs.Fault.{cause_of};

use crate::FrameFault;
use crate::octets::join;
use crate::tag::TAG_PROTOCOL;
use net_base::{CircuitId, Plan, pair};

// The octets of a frame and header that every frame has.
const HEADER: usize = 14;

// The parts of the frame that join to it without its tag, where its VLAN ID is the one that is told.
fn untagged_parts(tag: Option<u16>, frame: &[u8]) -> Result<(&[u8], &[u8]), FrameFault>
    requires { 14 ≤ length frame.now }
    ensures ok { IfOk result (λ parts. untagged tag frame.now ≡ Ok (parts.0.now ++ parts.1.now)) }
    ensures least { IfOk result (λ parts. 14 ≤ length parts.0.now + length parts.1.now) }
    ensures fits { IfOk result (λ parts. length parts.0.now + length parts.1.now ≤ length frame.now) }
    ensures fault { IfErr result (λ fault. untagged tag frame.now ≡ Err (cause_of fault)) }
{
    let Some(tag) = tag else {
        return Ok((frame, &[]));
    };
    if pair(frame, 12) != TAG_PROTOCOL {
        return Err(FrameFault::NoTag);
    }
    if frame.len() < 18 {
        return Err(FrameFault::Short);
    }
    if pair(frame, 14) % 4096 != tag {
        return Err(FrameFault::WrongTag);
    }
    Ok((frame.split_at(12).0, frame.split_at(16).1))
}

/// The inner frame of what enters at a circuit: the frame without the circuit's tag, where it has one (RFC
/// 4762 section 7.1). Answers two parts of the frame that join to it, so that nothing is copied; without a tag
/// the first is all of it, and the second nothing. The `mtu` counts the octets behind a header, and leaves room
/// for one tag of the customer's own. The first fault that holds is answered: `Short` for fewer octets than a
/// header, or than a header and the circuit's tag, `NoTag` where that tag is missing, `WrongTag` where it has
/// another VLAN ID, and `Long` for an inner frame of more than `mtu` and 18 octets.
pub fn inner_parts(tag: Option<u16>, mtu: u16, frame: &[u8]) -> Result<(&[u8], &[u8]), FrameFault>
    ensures ok { IfOk result (λ parts. inner_of tag mtu frame.now ≡ Ok (parts.0.now ++ parts.1.now)) }
    ensures least { IfOk result (λ parts. 14 ≤ length parts.0.now + length parts.1.now) }
    ensures fits { IfOk result (λ parts. length parts.0.now + length parts.1.now ≤ length frame.now) }
    ensures fault { IfErr result (λ fault. inner_of tag mtu frame.now ≡ Err (cause_of fault)) }
{
    if frame.len() < HEADER {
        return Err(FrameFault::Short);
    }
    let (front, back) = untagged_parts(tag, frame)?;
    if front.len() + back.len() > mtu as usize + HEADER + 4 {
        return Err(FrameFault::Long);
    }
    Ok((front, back))
}

/// The inner frame of what passes a circuit of a plan, by the circuit's tag and the MTU of its service, in parts and with the faults
/// of `inner_parts`; `None` exactly where the plan has no such circuit, or none such service.
pub fn inner_at<'a>(
    plan: &Plan,
    circuit: CircuitId,
    frame: &'a [u8],
) -> Option<Result<(&'a [u8], &'a [u8]), FrameFault>>
    ensures read { IfSome result (λ read. MatchResult read (λ parts. inner_at plan.now circuit frame.now ≡ Ok (parts.0.now ++ parts.1.now)) (λ fault. inner_at plan.now circuit frame.now ≡ Err (cause_of fault))) }
    ensures least { IfSome result (λ read. IfOk read (λ parts. 14 ≤ length parts.0.now + length parts.1.now)) }
    ensures none { result ≡ None → inner_at plan.now circuit frame.now ≡ Err Down }
    ensures unknown { result ≡ None → mtu_by plan.now (service_of plan.now circuit) ≡ None }
{
    let Some(row) = plan.circuits.get(circuit.0 as usize) else {
        return None;
    };
    let Some(service) = plan.services.get(row.service.0 as usize) else {
        return None;
    };
    Some(inner_parts(row.tag, service.mtu, frame))
}

/// The inner frame of what enters at a circuit, in one piece. Writes it to the front of `out`, which is as long
/// as the frame or longer, and answers its length in octets. The faults are those of `inner_parts`, and with a
/// fault nothing was written.
pub fn inner(tag: Option<u16>, mtu: u16, frame: &[u8], out: &mut [u8]) -> Result<usize, FrameFault>
    requires { length frame.now ≤ length out.old }
    ensures ok { IfOk result (λ count. inner_of tag mtu frame.now ≡ Ok (take count out.new)) }
    ensures count { IfOk result (λ count. count ≤ length frame.now) }
    ensures rest { IfOk result (λ count. drop count out.new ≡ drop count out.old) }
    ensures fault { IfErr result (λ fault. inner_of tag mtu frame.now ≡ Err (cause_of fault)) }
    ensures unchanged { OnErr result (out.new ≡ out.old) }
{
    match inner_parts(tag, mtu, frame) {
        Ok((front, back)) => Ok(join(front, back, out)),
        Err(fault) => Err(fault),
    }
}
