//! The names of a plan by which commands name its rows.
ghost use Rattle.std.specs.Prelude.{◌≡◌, ◌≤◌, length, IfOk};
ghost use Rattle.net_base.specs.plan.Accepted.{IsWithinLimits};
ghost use Rattle.plan_names.specs.Planned.{names_of};

use crate::name_index::NameIndex;
use crate::plan_names::PlanNames;
use crate::row_names::{names_of_circuits, names_of_edges, names_of_wires};
use net_base::{Name, NoMemory, Plan};
use std::alloc::Global;
use std::marker::Model;

/// The names of the edges, the circuits and the wires of a plan, each list in order.
#[derive(Drop)]
pub struct NameLists {
    edges: Vec<Name>,
    circuits: Vec<Name>,
    wires: Vec<Name>,
}

impl Model for NameLists {
    ghost use Rattle.std.specs.Prelude.{◌≤◌, length};
    ghost use Rattle.plan_names.specs.declared.plan_names.PlanNames.{PlanNames};

    ghost Value = { PlanNames };

    ghost view = { λ l. record { edges = l.edges.items; circuits = l.circuits.items; wires = l.wires.items } };

    ghost invariant = { λ l. (length l.edges.items ≤ 1664) × (length l.circuits.items ≤ 1664) × (length l.wires.items ≤ 1664) };
}

impl NameLists {
    /// The names of a plan.
    pub fn of(alloc: Global, plan: &Plan) -> Result<NameLists, NoMemory>
        requires { IsWithinLimits plan.now }
        ensures { IfOk result (λ names. names ≡ names_of plan.now) }
    {
        let edges = names_of_edges(alloc, plan.edges.as_slice())?;
        let circuits = names_of_circuits(alloc, plan.circuits.as_slice())?;
        let wires = names_of_wires(alloc, plan.wires.as_slice())?;
        Ok(NameLists {
            edges,
            circuits,
            wires,
        })
    }

    /// The same names, each list with its index. An index is given to `drop`, since its end at a brace proves slowly.
    pub fn indexed(&self, alloc: Global) -> Result<PlanNames<'_>, NoMemory>
        ensures { IfOk result (λ names. names ≡ self.now) }
    {
        let edges = NameIndex::of(alloc, self.edges.as_slice())?;
        match NameIndex::of(alloc, self.circuits.as_slice()) {
            Ok(circuits) => match NameIndex::of(alloc, self.wires.as_slice()) {
                Ok(wires) => Ok(PlanNames {
                    edges,
                    circuits,
                    wires,
                }),
                Err(NoMemory) => {
                    drop(edges);
                    drop(circuits);
                    Err(NoMemory)
                }
            },
            Err(NoMemory) => {
                drop(edges);
                Err(NoMemory)
            }
        }
    }
}
