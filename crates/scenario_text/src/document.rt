//! Whole documents.
ghost use Rattle.std.specs.{Prelude.{◌≡◌, ◌≤◌, length, IfOk}, List.{All}};
ghost use Rattle.net_base.specs.plan.Accepted.{IsWithinLimits, IsChecked};
ghost use Rattle.toml.specs.{Parse.{parse_document}, View.{items_view, table_view}};
ghost use Rattle.command_text.specs.{Events.{commands_in, most_events}, Reading.{Gives}, Planned.{IsPlanned}};
ghost use Rattle.scenario_text.specs.{Arrays.{arrays_of, HasLimits}, Document.{plan_in, scenario_in, scenario_or, document}};

use crate::Scenario;
use crate::arrays::{Arrays, document_arrays, take_events};
use crate::circuit_row::CircuitRow;
use crate::group_row::GroupRow;
use crate::plan::plan;
use crate::port_rows::PortRows;
use crate::rows::rows;
use crate::wire_row::WireRow;
use command_text::{Command, ScenarioFault, read_commands};
use net_base::{EdgePlan, List, NoMemory, Plan, ServicePlan, Table as TableKind};
use plan_names::NameLists;
use std::alloc::Global;
use toml::{Table, Value};

// The commands at a plan.
fn plan_commands(
    alloc: Global,
    plan: &Plan,
    events: Vec<Value>,
) -> Result<List<Command>, ScenarioFault>
    requires limits { IsWithinLimits plan.now }
    requires few { length events.items ≤ most_events }
    ensures exact { Gives result (commands_in plan.now 1 0 (items_view events.items)) }
    ensures many { IfOk result (λ commands. length commands ≡ length events.items) }
    ensures planned { IfOk result (λ commands. All (IsPlanned plan.now) commands) }
{
    let lists = NameLists::of(alloc, plan)?;
    match lists.indexed(alloc) {
        Ok(names) => {
            let commands = read_commands(alloc, plan, &names, events);
            drop(names);
            commands
        }
        Err(NoMemory) => Err(ScenarioFault::NoMemory),
    }
}

// The plan of the arrays.
#[tactic(auto, unfolding(crate::specs::Document::plan_in))]
fn arrays_plan(alloc: Global, arrays: &Arrays<'_>) -> Result<Plan, ScenarioFault>
    requires { HasLimits arrays.now }
    ensures exact { Gives result (plan_in (arrays_of arrays.now)) }
    ensures checked { IfOk result IsChecked }
{
    let version = arrays.version;
    let edges = rows::<EdgePlan>(alloc, version, TableKind::Edge, arrays.edges)?;
    let services = rows::<ServicePlan>(alloc, version, TableKind::Service, arrays.services)?;
    let groups = rows::<GroupRow>(alloc, version, TableKind::Group, arrays.groups)?;
    let circuit_rows = rows::<CircuitRow>(alloc, version, TableKind::Circuit, arrays.circuits)?;
    let wire_rows = rows::<WireRow>(alloc, version, TableKind::Wire, arrays.wires)?;
    let rows = PortRows {
        circuits: circuit_rows.as_slice(),
        wires: wire_rows.as_slice(),
    };
    plan(alloc, edges, services, groups.as_slice(), rows)
}

// The scenario of a table. Once the plan is made of its arrays, the events alone are kept of it.
#[tactic(auto, unfolding(crate::specs::Document::scenario_in))]
fn scenario(alloc: Global, table: Table) -> Result<Scenario, ScenarioFault>
    ensures exact { Gives result (scenario_in (table_view table)) }
    ensures checked { IfOk result (λ scenario. IsChecked scenario.plan) }
    ensures few { IfOk result (λ scenario. length scenario.commands ≤ most_events) }
    ensures planned { IfOk result (λ scenario. All (IsPlanned scenario.plan) scenario.commands) }
{
    let arrays = match document_arrays(&table) {
        Ok(arrays) => arrays,
        Err(fault) => return Err(fault),
    };
    match arrays_plan(alloc, &arrays) {
        Ok(plan) => match plan_commands(alloc, &plan, take_events(alloc, table)) {
            Ok(commands) => Ok(Scenario { plan, commands }),
            Err(fault) => Err(fault),
        },
        Err(fault) => Err(fault),
    }
}

// The scenario of a text.
fn read_text(alloc: Global, text: &str) -> Result<Scenario, ScenarioFault>
    ensures exact { Gives result (scenario_or (parse_document text.now)) }
    ensures checked { IfOk result (λ scenario. IsChecked scenario.plan) }
    ensures few { IfOk result (λ scenario. length scenario.commands ≤ most_events) }
    ensures planned { IfOk result (λ scenario. All (IsPlanned scenario.plan) scenario.commands) }
{
    match toml::table_from_str(alloc, text) {
        Ok(table) => scenario(alloc, table),
        Err(fault) => {
            if fault.is_memory() {
                Err(ScenarioFault::NoMemory)
            } else {
                Err(ScenarioFault::NotToml)
            }
        }
    }
}

/// The scenario that a document of version 1 or 2 is, or its first fault.
///
/// The faults come in this order. `NotToml` where the bytes are no TOML document, not UTF-8 among them.
/// `Missing`, `WrongKind` and `Version` of the key `version`. `WrongKind` of `events`, `edge`, `service`,
/// `group` (which version 2 alone has), `circuit` and `wire`, then `UnknownKey` of the top, then `TooMany`: at
/// most 100,000 events, 64 edges, 64 services, 2,048 groups, 512 circuits and 1,024 wires. Row by row, in the
/// same order of the tables, `Missing`, `WrongKind` and `OutOfRange` of each key, and then the row's
/// `UnknownKey`; in version 2 the keys of a wire's `near` and then of its `far` come behind those of the wire,
/// each table with its own `UnknownKey`. `UnknownName` of what circuits and then wires name. `RepeatedName` of
/// a group. The faults of `Plan::check`. Last, event by event, `BadWord`. `NoMemory` comes where memory was
/// refused, and says nothing of the bytes.
pub fn read_scenario(alloc: Global, bytes: &[u8]) -> Result<Scenario, ScenarioFault>
    ensures document { Gives result (document bytes.now) }
    ensures checked { IfOk result (λ scenario. IsChecked scenario.plan) }
    ensures few { IfOk result (λ scenario. length scenario.commands ≤ most_events) }
    ensures planned { IfOk result (λ scenario. All (IsPlanned scenario.plan) scenario.commands) }
{
    match str::from_utf8(bytes) {
        Ok(text) => read_text(alloc, text),
        Err(_) => Err(ScenarioFault::NotToml),
    }
}
