//! The names of rows in order.
ghost use Rattle.std.specs.Prelude.{◌≡◌, ◌++◌, IfOk, IsOkAnd};
ghost use Rattle.net_base.specs.plan.Accepted.{plan_names};
ghost use Rattle.scenario_text.specs.References.{group_names};

use crate::group_row::GroupRow;
use net_base::{Name, Plan};
use plan_names::{names_of_circuits, names_of_edges, names_of_services, names_of_wires};
use std::alloc::{AllocError, Global};

/// The names of groups in order.
pub fn names_of_groups(alloc: Global, groups: &[GroupRow]) -> Result<Vec<Name>, AllocError>
    ensures { IfOk result (λ names. names.items ≡ group_names groups.now) }
{
    groups.iter().map(|group| group.name).collect(alloc)
}

// Adds names behind others, where there was memory for them.
fn add(names: &mut Vec<Name>, added: Result<Vec<Name>, AllocError>) -> Result<(), AllocError>
    ensures { IfOk result (λ _. IsOkAnd added (λ added. names.new.items ≡ names.old.items ++ added.items)) }
{
    match added {
        Ok(added) => names.extend_from_slice(added.as_slice()),
        Err(AllocError) => Err(AllocError),
    }
}

/// The names of a plan in order, over all its lists.
pub fn names_of_plan(alloc: Global, plan: &Plan) -> Result<Vec<Name>, AllocError>
    ensures { IfOk result (λ names. names.items ≡ plan_names plan.now) }
{
    let mut names = names_of_edges(alloc, plan.edges.as_slice())?;
    add(
        &mut names,
        names_of_services(alloc, plan.services.as_slice()),
    )?;
    add(
        &mut names,
        names_of_circuits(alloc, plan.circuits.as_slice()),
    )?;
    match add(&mut names, names_of_wires(alloc, plan.wires.as_slice())) {
        Ok(()) => Ok(names),
        Err(AllocError) => Err(AllocError),
    }
}
