//! The circuits of a plan.
ghost use Rattle.std.specs.Prelude.{◌≡◌, ◌≤◌, length, IfOk};
ghost use Rattle.command_text.specs.Reading.{Gives};
ghost use Rattle.scenario_text.specs.{References.{circuit_in, circuit_plans}, Top.{most_circuits}};

use crate::circuit_row::CircuitRow;
use crate::named::named_place;
use crate::rows::row_place;
use command_text::{RowPlace, ScenarioFault};
use net_base::{CircuitPlan, EdgeId, List, ServiceId, Table as TableKind};
use plan_names::NameIndex;
use std::alloc::Global;

// The circuit of a row.
#[tactic(auto, unfolding(crate::specs::References::circuit_in))]
fn circuit(
    edges: &NameIndex<'_>,
    services: &NameIndex<'_>,
    place: RowPlace,
    row: &CircuitRow,
) -> Result<CircuitPlan, ScenarioFault>
    ensures { result ≡ circuit_in edges.now services.now place row.now }
{
    let edge = named_place(place, "edge", edges, &row.edge)?;
    match named_place(place, "service", services, &row.service) {
        Ok(service) => Ok(CircuitPlan {
            name: row.name,
            edge: EdgeId(edge),
            service: ServiceId(service),
            tag: row.tag,
        }),
        Err(fault) => Err(fault),
    }
}

/// The circuits of the rows, whose edges and services have these names in order. `UnknownName` comes exactly
/// where a row names an edge or a service that is not among them.
pub fn circuits(
    alloc: Global,
    edges: &NameIndex<'_>,
    services: &NameIndex<'_>,
    rows: &[CircuitRow],
) -> Result<List<CircuitPlan>, ScenarioFault>
    requires { length rows.now ≤ most_circuits }
    ensures exact { Gives result (circuit_plans edges.now services.now 1 rows.now) }
    ensures many { IfOk result (λ circuits. length circuits ≡ length rows.now) }
{
    let mut circuits = List::new(alloc);
    for (i, row) in rows.iter().enumerate() {
        let place = row_place(TableKind::Circuit, i);
        let circuit = circuit(edges, services, place, row)?;
        circuits.push(circuit)?;
    }
    Ok(circuits)
}
