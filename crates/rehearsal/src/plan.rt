//! The network of a rehearsal.
ghost use Rattle.std.specs.Prelude.{◌≡◌, ◌<◌, ◌≤◌, ◌++◌, ◌∷◌, [], IfOk, OnOk};
ghost use Rattle.rehearsal.specs.Rows.{edge_row, edges_from, rehearsed_circuit, circuits_from, rehearsed_service, plan, wires};

use crate::numbered::numbered;
use crate::wires::add_wires;
use net_base::{
    Addr, CircuitPlan, EdgeId, EdgePlan, List, Name, NoMemory, Plan, ServiceId, ServicePlan,
};
use std::alloc::Global;

// Adds the edges.
fn add_edges(alloc: Global, rows: &mut List<EdgePlan>) -> Result<(), NoMemory>
    ensures { OnOk result (rows.new ≡ rows.old ++ edges_from 16 1) }
{
    for number in 1..17u8 {
        rows.push(EdgePlan {
            name: numbered(alloc, "e", number as u16)?,
            address: Addr([10, 0, 0, number]),
            first_label: 16,
            keepalive: 180,
            max_pdu: 4096,
        })?;
    }
    Ok(())
}

fn service() -> ServicePlan
    ensures { result ≡ rehearsed_service }
{
    ServicePlan {
        name: Name::read("s").unwrap(),
        mtu: 1500,
        age: 300,
    }
}

fn circuit(alloc: Global, number: u16) -> Result<CircuitPlan, NoMemory>
    requires { 1 ≤ number }
    ensures { IfOk result (λ row. row ≡ rehearsed_circuit number) }
{
    Ok(CircuitPlan {
        name: numbered(alloc, "c", number)?,
        edge: EdgeId(number - 1),
        service: ServiceId(0),
        tag: None,
    })
}

// Adds the circuits.
fn add_circuits(alloc: Global, rows: &mut List<CircuitPlan>) -> Result<(), NoMemory>
    ensures { OnOk result (rows.new ≡ rows.old ++ circuits_from 16 1) }
{
    for number in 1..17u16 {
        rows.push(circuit(alloc, number)?)?;
    }
    Ok(())
}

// Adds the rows of each kind to a plan.
fn add_rows(alloc: Global, made: &mut Plan) -> Result<(), NoMemory>
    ensures edges { OnOk result (made.new.edges ≡ made.old.edges ++ edges_from 16 1) }
    ensures services { OnOk result (made.new.services ≡ made.old.services ++ rehearsed_service ∷ []) }
    ensures circuits { OnOk result (made.new.circuits ≡ made.old.circuits ++ circuits_from 16 1) }
    ensures wires { OnOk result (made.new.wires ≡ made.old.wires ++ wires) }
{
    add_edges(alloc, &mut made.edges)?;
    made.services.push(service())?;
    add_circuits(alloc, &mut made.circuits)?;
    add_wires(alloc, &mut made.wires)
}

/// Sixteen edges, with a circuit of one service at each of them. The first eight are core edges in a full mesh; each of the others
/// has two spokes. It passes `Plan::check`.
#[tactic(auto, unfolding(crate::specs::Rows::plan))]
pub fn plan(alloc: Global) -> Result<Plan, NoMemory>
    ensures plan { IfOk result (λ made. made ≡ plan) }
{
    let mut made = Plan {
        edges: List::new(alloc),
        services: List::new(alloc),
        circuits: List::new(alloc),
        wires: List::new(alloc),
    };
    match add_rows(alloc, &mut made) {
        Ok(()) => Ok(made),
        Err(fault) => Err(fault),
    }
}
