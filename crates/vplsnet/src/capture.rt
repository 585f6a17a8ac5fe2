//! The command `capture`: the frames that left a circuit in a scenario's run.
ghost use Rattle.std.specs.{Prelude.{◌≡◌, ◌<◌, length, option_map, position, IfSome}, Str.{bytes_eq}};
ghost use Rattle.net_base.specs.plan.Accepted.{IsChecked};
ghost use Rattle.text_lines.specs.Written.{PutsOn};
ghost use Rattle.vplsnet.specs.{Asked.{run_asked_by}, Capture.{circuit_of as place_of, lacks_circuit, lacking as lacks, left_at}};

use crate::run_request::RunRequest;
use capture_text::put_capture;
use net_base::{CircuitId, CircuitPlan, Failed, Plan, Sink};
use psn_net::Network;
use text_lines::Page;

/// The circuit that a request names and the plan lacks.
pub fn missing_circuit<'a>(request: RunRequest<'a>, plan: &Plan) -> Option<&'a str>
    ensures { option_map (λ circuit. circuit.now) result ≡ lacks_circuit (run_asked_by request.entry) plan.now }
{
    match request {
        RunRequest::Capture { circuit, .. } => lacking(plan, circuit),
        RunRequest::Replay { .. } | RunRequest::Tables { .. } | RunRequest::Rehearse { .. } => None,
    }
}

/// Puts a capture of the frames that left the circuit of this name, and nothing where there is none.
#[tactic(auto, using(text_lines::proofs::WrittenLemmas::goes_none))]
pub fn put_left<K: Sink>(
    page: &mut Page,
    sink: &mut K,
    network: &Network,
    circuit: &str,
) -> Result<(), Failed>
    requires checked { IsChecked network.now.plan }
    ensures { PutsOn K.taken K.faults page.old page.new sink.old sink.new result (left_at network.now (place_of network.now.plan circuit.now)) }
{
    match circuit_of(network.plan().circuits.as_slice(), circuit.as_bytes()) {
        Some(place) => put_capture(
            page,
            sink,
            network.trace().as_slice(),
            CircuitId(place as u16),
        ),
        None => Ok(()),
    }
}

// The name of a circuit, where the plan lacks it.
fn lacking<'a>(plan: &Plan, circuit: &'a str) -> Option<&'a str>
    ensures { option_map (λ circuit. circuit.now) result ≡ lacks circuit.now (place_of plan.now circuit.now) }
{
    match circuit_of(plan.circuits.as_slice(), circuit.as_bytes()) {
        Some(_) => None,
        None => Some(circuit),
    }
}

// The place of the circuit of this name.
fn circuit_of(circuits: &[CircuitPlan], name: &[u8]) -> Option<usize>
    ensures place { result ≡ position (λ row. bytes_eq name.now row.name) circuits.now }
    ensures within { IfSome result (λ place. place < length circuits.now) }
{
    circuits.iter().position(|row| has_name(row, name))
}

// Whether a circuit has this name. Apart, as each test by a closure.
fn has_name(row: &CircuitPlan, name: &[u8]) -> bool
    ensures { result ≡ bytes_eq name.now row.now.name }
{
    name == row.name.as_slice()
}
