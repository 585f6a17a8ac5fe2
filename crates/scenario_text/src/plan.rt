//! The plan of a document.
ghost use Rattle.std.specs.Prelude.{◌≡◌, ◌≤◌, length, IfOk};
ghost use Rattle.net_base.specs.{plan.Accepted.{IsWithinLimits, IsChecked, plan_names}, plan.NameFaults.{edge_names, service_names}};
ghost use Rattle.plan_names.specs.Names.{are_distinct};
ghost use Rattle.command_text.specs.Reading.{Gives};
ghost use Rattle.scenario_text.specs.References.{group_names, passed, sound_with, placed_rows, plan_of};
ghost use Rattle.scenario_text.specs.Top.{most_edges, most_services, most_groups, most_circuits, most_wires};

use crate::circuits::circuits;
use crate::group_row::GroupRow;
use crate::group_rows::GroupRows;
use crate::groups::check_groups;
use crate::names::{names_of_groups, names_of_plan};
use crate::port_rows::PortRows;
use crate::service_rows::ServiceRows;
use crate::wires::wires;
use command_text::ScenarioFault;
use net_base::{CircuitPlan, EdgePlan, List, NoMemory, Plan, ServicePlan, WirePlan};
use plan_names::{NameIndex, names_of_edges, names_of_services};
use std::alloc::Global;

// Whether the names of a plan differ, over all its lists. An index is given to `drop`, since its end at a brace proves slowly.
fn have_distinct_names(alloc: Global, plan: &Plan) -> Result<bool, NoMemory>
    requires { IsWithinLimits plan.now }
    ensures { IfOk result (λ distinct. distinct ≡ are_distinct (plan_names plan.now)) }
{
    let Ok(names) = names_of_plan(alloc, plan) else {
        return Err(NoMemory);
    };
    match NameIndex::of(alloc, names.as_slice()) {
        Ok(index) => {
            let distinct = index.are_distinct();
            drop(index);
            Ok(distinct)
        }
        Err(NoMemory) => Err(NoMemory),
    }
}

// Refuses a plan over groups of which one has the name of an earlier one, and a plan that has a fault. Names are compared with each
// other only where one stands twice.
fn check(alloc: Global, groups: GroupRows<'_, '_>, plan: &Plan) -> Result<(), ScenarioFault>
    requires named { groups.index.now ≡ group_names groups.rows.now }
    requires few_groups { length groups.rows.now ≤ most_groups }
    requires limits { IsWithinLimits plan.now }
    ensures exact { Gives (passed plan.now result) (sound_with groups.entry.rows.now plan.now) }
    ensures checked { IfOk result (λ _. IsChecked plan.now) }
{
    check_groups(groups)?;
    let checked = if have_distinct_names(alloc, plan)? {
        plan.check_distinct()
    } else {
        plan.check()
    };
    match checked {
        Ok(()) => Ok(()),
        Err(fault) => Err(ScenarioFault::Plan(fault)),
    }
}

// The circuits and the wires of rows, each at the places that its row names.
#[derive(Drop)]
struct PlacedRows {
    circuits: List<CircuitPlan>,
    wires: List<WirePlan>,
}

// The circuits and the wires of these rows, where edges are found by this index.
#[tactic(auto, unfolding(crate::specs::References::placed_rows))]
fn placed_rows(
    alloc: Global,
    edges: &NameIndex<'_>,
    services: ServiceRows<'_, '_>,
    groups: GroupRows<'_, '_>,
    rows: PortRows<'_>,
) -> Result<PlacedRows, ScenarioFault>
    requires few_circuits { length rows.circuits.now ≤ most_circuits }
    requires few_wires { length rows.wires.now ≤ most_wires }
    requires same { services.index.now ≡ service_names services.rows.now }
    requires named { groups.index.now ≡ group_names groups.rows.now }
    ensures exact { Gives result (placed_rows edges.now services.entry.rows.now groups.entry.rows.now rows.entry.circuits.now rows.entry.wires.now) }
    ensures circuits { IfOk result (λ placed. length placed.circuits ≡ length rows.entry.circuits.now) }
    ensures wires { IfOk result (λ placed. length placed.wires ≡ length rows.entry.wires.now) }
{
    let circuits = circuits(alloc, edges, services.index, rows.circuits)?;
    match wires(alloc, edges, services, groups, rows.wires) {
        Ok(wires) => Ok(PlacedRows { circuits, wires }),
        Err(fault) => Err(fault),
    }
}

// The circuits and the wires of these rows, over these edges, services and groups.
fn rows_over(
    alloc: Global,
    edges: &[EdgePlan],
    services: &[ServicePlan],
    groups: GroupRows<'_, '_>,
    rows: PortRows<'_>,
) -> Result<PlacedRows, ScenarioFault>
    requires few_edges { length edges.now ≤ most_edges }
    requires few_services { length services.now ≤ most_services }
    requires few_circuits { length rows.circuits.now ≤ most_circuits }
    requires few_wires { length rows.wires.now ≤ most_wires }
    requires named { groups.index.now ≡ group_names groups.rows.now }
    ensures exact { Gives result (placed_rows (edge_names edges.now) services.now groups.entry.rows.now rows.entry.circuits.now rows.entry.wires.now) }
    ensures circuits { IfOk result (λ placed. length placed.circuits ≡ length rows.entry.circuits.now) }
    ensures wires { IfOk result (λ placed. length placed.wires ≡ length rows.entry.wires.now) }
{
    let edge_names = names_of_edges(alloc, edges)?;
    let service_names = names_of_services(alloc, services)?;
    match NameIndex::of(alloc, edge_names.as_slice()) {
        Ok(edges) => match NameIndex::of(alloc, service_names.as_slice()) {
            Ok(index) => {
                let services = ServiceRows {
                    index: &index,
                    rows: services,
                };
                let placed = placed_rows(alloc, &edges, services, groups, rows);
                drop(index);
                drop(edges);
                placed
            }
            Err(NoMemory) => {
                drop(edges);
                Err(ScenarioFault::NoMemory)
            }
        },
        Err(NoMemory) => Err(ScenarioFault::NoMemory),
    }
}

// The plan of these rows, where groups are found by their index.
#[tactic(auto, unfolding(crate::specs::References::plan_of))]
fn plan_over(
    alloc: Global,
    edges: List<EdgePlan>,
    services: List<ServicePlan>,
    groups: GroupRows<'_, '_>,
    rows: PortRows<'_>,
) -> Result<Plan, ScenarioFault>
    requires few_edges { length edges ≤ most_edges }
    requires few_services { length services ≤ most_services }
    requires few_groups { length groups.rows.now ≤ most_groups }
    requires few_circuits { length rows.circuits.now ≤ most_circuits }
    requires few_wires { length rows.wires.now ≤ most_wires }
    requires named { groups.index.now ≡ group_names groups.rows.now }
    ensures exact { Gives result (plan_of edges services groups.entry.rows.now rows.entry.circuits.now rows.entry.wires.now) }
    ensures checked { IfOk result IsChecked }
{
    match rows_over(alloc, edges.as_slice(), services.as_slice(), groups, rows) {
        Ok(placed) => {
            let plan = Plan {
                edges,
                services,
                circuits: placed.circuits,
                wires: placed.wires,
            };
            match check(alloc, groups, &plan) {
                Ok(()) => Ok(plan),
                Err(fault) => Err(fault),
            }
        }
        Err(fault) => Err(fault),
    }
}

/// The plan of these rows.
pub fn plan(
    alloc: Global,
    edges: List<EdgePlan>,
    services: List<ServicePlan>,
    groups: &[GroupRow],
    rows: PortRows<'_>,
) -> Result<Plan, ScenarioFault>
    requires few_edges { length edges ≤ most_edges }
    requires few_services { length services ≤ most_services }
    requires few_groups { length groups.now ≤ most_groups }
    requires few_circuits { length rows.circuits.now ≤ most_circuits }
    requires few_wires { length rows.wires.now ≤ most_wires }
    ensures exact { Gives result (plan_of edges services groups.now rows.entry.circuits.now rows.entry.wires.now) }
    ensures checked { IfOk result IsChecked }
{
    let names = names_of_groups(alloc, groups)?;
    match NameIndex::of(alloc, names.as_slice()) {
        Ok(index) => {
            let groups = GroupRows {
                index: &index,
                rows: groups,
            };
            let plan = plan_over(alloc, edges, services, groups, rows);
            drop(index);
            plan
        }
        Err(NoMemory) => Err(ScenarioFault::NoMemory),
    }
}
