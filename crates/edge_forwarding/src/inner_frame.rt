//! The inner frame of what comes by a circuit.
ghost use Rattle.std.specs.Prelude.{◌≡◌, ◌<◌, ◌≤◌, ◌+◌, ◌++◌, Ok, Err, length, All, IfOk, MatchResult};
ghost use Rattle.net_base.specs.{plan.Accepted.{IsCircuitOf}, trace.Isolated.{inner_at}};
ghost use Rattle.eth_encap.specs.Fault.{cause_of};

use eth_encap::{FrameFault, inner_at};
use net_base::{CircuitId, Plan};

/// The inner frame of what comes by a circuit of the plan, or its first fault. Answers two parts of the octets that join to it, so
/// that nothing is copied; at a circuit without a tag the first is all of it, and the second nothing.
pub fn read_inner<'a>(
    plan: &Plan,
    circuit: CircuitId,
    octets: &'a [u8],
) -> Result<(&'a [u8], &'a [u8]), FrameFault>
    requires planned { All (IsCircuitOf plan.now) plan.now.circuits }
    requires circuit { circuit.0 < length plan.now.circuits }
    ensures read { MatchResult result (λ parts. inner_at plan.now circuit octets.now ≡ Ok (parts.0.now ++ parts.1.now)) (λ fault. inner_at plan.now circuit octets.now ≡ Err (cause_of fault)) }
    ensures header { IfOk result (λ parts. 14 ≤ length parts.0.now + length parts.1.now) }
{
    match inner_at(plan, circuit, octets) {
        Some(read) => read,
        None => unreachable!(),
    }
}
