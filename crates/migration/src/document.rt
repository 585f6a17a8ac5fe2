//! Whole documents.
ghost use Rattle.std.specs.{Prelude.{◌≡◌, Some, false, codes, map, string_bytes, IfOk, OnOk}, List.{All}};
ghost use Rattle.toml.specs.{Parse.{parse_document}, Text.{IsDocumentText}, View.{table_view}, Data.{no_members, table as table_data}};
ghost use Rattle.migration.specs.{Groups.{used_groups}, Migrated.{plan_table, migrated}, Rows.{group_table}, Tables.{put_some}};
ghost use Rattle.migration.specs.Sayable.{HasTexts, IsSayable, IsSayableScenario};
ghost use Rattle.plan_names.specs.Planned.{HasNames};

use crate::commands::command_lines;
use crate::groups::groups_of;
use crate::keys::{no_keys, put_array, put_number, put_some};
use crate::rows::{PlanRow, rows};
use command_text::Command;
use net_base::{NoMemory, Plan};
use std::alloc::Global;
use toml::Table;

// Puts rows of a plan at a key, where there are any.
fn put_rows<T: PlanRow>(
    alloc: Global,
    table: &mut Table,
    key: &str,
    plan: &Plan,
    items: &[T],
) -> Result<(), NoMemory>
    requires { All T.is_sayable items.now }
    ensures { OnOk result (table_view table.new ≡ put_some key.now (map (λ item. table_data (T.table_of plan.now item)) items.now) (table_view table.old)) }
{
    let rows = rows(alloc, plan, items)?;
    put_some(alloc, table, key, rows)
}

// Puts the groups that the wires of a plan use, where there are any.
fn put_groups(alloc: Global, table: &mut Table, plan: &Plan) -> Result<(), NoMemory>
    ensures { OnOk result (table_view table.new ≡ put_some (codes "group") (map (λ group. table_data (group_table group)) (used_groups plan.now.wires)) (table_view table.old)) }
{
    let groups = groups_of(alloc, plan.wires.as_slice())?;
    put_rows(alloc, table, "group", plan, groups.as_slice())
}

// Puts the rows of a plan into a table without keys.
#[tactic(auto, unfolding(crate::specs::Migrated::plan_table))]
fn put_plan(alloc: Global, table: &mut Table, plan: &Plan) -> Result<(), NoMemory>
    requires texts { All HasTexts plan.now.wires }
    requires none { table_view table.old ≡ no_members }
    ensures { OnOk result (table_view table.new ≡ plan_table plan.now) }
{
    put_rows(alloc, table, "wire", plan, plan.wires.as_slice())?;
    put_rows(alloc, table, "circuit", plan, plan.circuits.as_slice())?;
    put_groups(alloc, table, plan)?;
    put_rows(alloc, table, "service", plan, plan.services.as_slice())?;
    put_rows(alloc, table, "edge", plan, plan.edges.as_slice())
}

// Puts the document of version 2 that a plan and its commands are into a table without keys.
#[tactic(auto, unfolding(crate::specs::Migrated::top_table))]
fn put_document(
    alloc: Global,
    table: &mut Table,
    plan: &Plan,
    commands: &[Command],
) -> Result<(), NoMemory>
    requires sayable { IsSayableScenario plan.now commands.now }
    requires none { table_view table.old ≡ no_members }
    ensures { OnOk result (table_view table.new ≡ migrated plan.now commands.now) }
{
    put_plan(alloc, table, plan)?;
    let events = command_lines(alloc, plan, commands)?;
    put_array(alloc, table, "events", events)?;
    put_number(alloc, table, "version", 2)
}

// The document of version 2 that a plan and its commands are.
fn migrated_table(alloc: Global, plan: &Plan, commands: &[Command]) -> Result<Table, NoMemory>
    requires { IsSayableScenario plan.now commands.now }
    ensures { IfOk result (λ t. table_view t ≡ migrated plan.now commands.now) }
{
    let mut table = no_keys(alloc);
    match put_document(alloc, &mut table, plan, commands) {
        Ok(()) => Ok(table),
        Err(fault) => Err(fault),
    }
}

/// A text of version 2 of a plan and its commands. The table has every key but an absent tag, VLAN ID or group, and but an array of
/// tables without rows; an MTU that is not told is 0. A group above 0 has the name `g` and its number, and groups stand in the order of
/// their first use. Commands are written in the words in which they are read, octets in lower-case hexadecimal.
///
/// The whole table and its text are made in memory, some three times what the text has. `NoMemory` says nothing of the scenario.
#[tactic(auto, using(crate::proofs::ShallowLemmas::is_shallow))]
pub fn migrated_text(alloc: Global, plan: &Plan, commands: &[Command]) -> Result<String, NoMemory>
    requires { IsSayableScenario plan.now commands.now }
    ensures text { IfOk result (λ t. IsDocumentText false (migrated plan.now commands.now) (string_bytes t)) }
    ensures read { IfOk result (λ t. parse_document (string_bytes t) ≡ Some (migrated plan.now commands.now)) }
{
    let table = migrated_table(alloc, plan, commands)?;
    match toml::table_to_string(alloc, &table) {
        Ok(text) => Ok(text),
        Err(_) => Err(NoMemory),
    }
}
