//! What faults take.
ghost use Rattle.std.specs.{Prelude.{◌≡◌, ◌==◌}, List.{list_any}};
ghost use Rattle.survey_laws.specs.Faults.{is_taken, number_after, number_by, takes};

use net_base::{EdgeId, WirePlan};
use survey_laws::Fault;

// Whether an edge stands on a path.
fn has_edge(path: &[EdgeId], edge: EdgeId) -> bool
    ensures { result ≡ list_any (λ step. edge.0 == step.0) path.now }
{
    path.iter().any(|step| edge.0 == step.0)
}

// Whether a fault takes a wire.
fn takes(wire: usize, row: &WirePlan, fault: Fault) -> bool
    ensures { result ≡ takes wire row.now fault }
{
    match fault {
        Fault::Session { one, other } => row.are_neighbours(one, other),
        Fault::Edge { edge } => has_edge(row.path.as_slice(), edge),
        Fault::Wire { wire: lost } => wire == lost.0 as usize,
        Fault::Priority { .. } | Fault::Circuit { .. } => false,
    }
}

/// Whether some of the faults takes a wire.
pub fn is_taken(faults: &[Fault], wire: usize, row: &WirePlan) -> bool
    ensures { result ≡ is_taken faults.now wire row.now }
{
    faults.iter().any(|fault| takes(wire, row, *fault))
}

// The priority number of a spoke that had this one, after a fault.
fn number_by(wire: usize, fault: Fault, had: u8) -> u8
    ensures { result ≡ number_by wire fault had }
{
    match fault {
        Fault::Priority {
            wire: spoke,
            priority,
        } if wire == spoke.0 as usize => priority,
        _ => had,
    }
}

/// The priority number of a spoke that had this one, after faults: the last one that they set.
pub fn number_after(wire: usize, faults: &[Fault], had: u8) -> u8
    ensures { result ≡ number_after wire faults.now had }
{
    let mut number = had;
    for fault in faults {
        number = number_by(wire, *fault, number);
    }
    number
}
