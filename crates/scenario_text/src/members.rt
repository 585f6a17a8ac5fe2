//! Members of a table.
ghost use Rattle.std.specs.Prelude.{◌≡◌, ◌≤◌, None, option_map, IfOk, IfSome};
ghost use Rattle.toml.specs.{Data.{get_member}, View.{view, table_view}};
ghost use Rattle.command_text.specs.{Places.{place_of_key}, Reading.{Gives, MapsTo, found}};
ghost use Rattle.scenario_text.specs.Values.{a_name, an_address, a_number, a_boolean, a_class, a_mode, a_description, a_path, needed, defaulted, optional};
ghost use Rattle.scenario_text.specs.Rows.{a_group, a_table};

use crate::document_version::DocumentVersion;
use crate::group_use::GroupUse;
use crate::table_row::TableRow;
use crate::values::{address, boolean, class, description, mode, name, number, path};
use command_text::{RowPlace, ScenarioFault};
use net_base::{Addr, Class, List, Name, Text};
use std::alloc::Global;
use toml::{Table, Value};

/// The value at a key.
pub fn member<'a>(table: &'a Table, key: &str) -> Option<&'a Value>
    ensures { option_map (λ v. view v.now) result ≡ get_member key.now (table_view table.now) }
{
    table.get(key)
}

/// The value at a key that the table at a place has to have.
pub fn needed_value<'a>(
    place: RowPlace,
    table: &'a Table,
    key: &str,
) -> Result<&'a Value, ScenarioFault>
    ensures { MapsTo (λ v. view v.now) result (found (ScenarioFault.Missing (place_of_key place key.now)) (get_member key.now (table_view table.now))) }
{
    match member(table, key) {
        Some(value) => Ok(value),
        None => Err(place.missing(key)),
    }
}

/// The value at a key that the row has to have.
pub fn needed_member<'a>(row: TableRow<'a>, key: &str) -> Result<&'a Value, ScenarioFault>
    ensures { MapsTo (λ v. view v.now) result (found (ScenarioFault.Missing (place_of_key row.entry.place key.now)) (get_member key.now (table_view row.entry.table.now))) }
{
    needed_value(row.place, row.table, key)
}

/// The name at a key.
pub fn name_at(row: TableRow<'_>, key: &str) -> Result<Name, ScenarioFault>
    ensures { result ≡ needed a_name row.entry.place key.now (table_view row.entry.table.now) }
{
    match needed_member(row, key) {
        Ok(value) => name(row.place, key, value),
        Err(fault) => Err(fault),
    }
}

/// The address at a key.
pub fn address_at(row: TableRow<'_>, key: &str) -> Result<Addr, ScenarioFault>
    ensures { result ≡ needed an_address row.entry.place key.now (table_view row.entry.table.now) }
{
    match needed_member(row, key) {
        Ok(value) => address(row.place, key, value),
        Err(fault) => Err(fault),
    }
}

/// The class at a key.
pub fn class_at(row: TableRow<'_>, key: &str) -> Result<Class, ScenarioFault>
    ensures { result ≡ needed a_class row.entry.place key.now (table_view row.entry.table.now) }
{
    match needed_member(row, key) {
        Ok(value) => class(row.place, key, value),
        Err(fault) => Err(fault),
    }
}

/// The names of edges at a key.
pub fn path_at(alloc: Global, row: TableRow<'_>, key: &str) -> Result<List<Name>, ScenarioFault>
    ensures { Gives result (needed a_path row.entry.place key.now (table_view row.entry.table.now)) }
{
    match needed_member(row, key) {
        Ok(value) => path(alloc, row.place, key, value),
        Err(fault) => Err(fault),
    }
}

/// The number at a key that the row has to have.
pub fn number_at(row: TableRow<'_>, key: &str, low: u32, high: u32) -> Result<u32, ScenarioFault>
    ensures exact { result ≡ needed (a_number low high) row.entry.place key.now (table_view row.entry.table.now) }
    ensures within { IfOk result (λ n. (low ≤ n) × (n ≤ high)) }
{
    match needed_member(row, key) {
        Ok(value) => number(row.place, key, value, low, high),
        Err(fault) => Err(fault),
    }
}

/// The number at a key, or the default.
pub fn number_or(
    default: u32,
    row: TableRow<'_>,
    key: &str,
    low: u32,
    high: u32,
) -> Result<u32, ScenarioFault>
    requires reaches { low ≤ default }
    requires fits { default ≤ high }
    ensures exact { result ≡ defaulted default (a_number low high) row.entry.place key.now (table_view row.entry.table.now) }
    ensures within { IfOk result (λ n. (low ≤ n) × (n ≤ high)) }
{
    match member(row.table, key) {
        Some(value) => number(row.place, key, value, low, high),
        None => Ok(default),
    }
}

/// The number at a key that may be left out.
pub fn optional_number(
    default: Option<u16>,
    row: TableRow<'_>,
    key: &str,
    low: u32,
    high: u32,
) -> Result<Option<u16>, ScenarioFault>
    requires short { high ≤ 65535 }
    requires within { IfSome default (λ n. (low ≤ n) × (n ≤ high)) }
    ensures exact { result ≡ optional default (a_number low high) row.entry.place key.now (table_view row.entry.table.now) }
    ensures within { IfOk result (λ o. IfSome o (λ n. (low ≤ n) × (n ≤ high))) }
{
    match member(row.table, key) {
        Some(value) => match number(row.place, key, value, low, high) {
            Ok(number) => Ok(Some(number as u16)),
            Err(fault) => Err(fault),
        },
        None => Ok(default),
    }
}

/// The boolean at a key, or the default.
pub fn boolean_or(default: bool, row: TableRow<'_>, key: &str) -> Result<bool, ScenarioFault>
    ensures { result ≡ defaulted default a_boolean row.entry.place key.now (table_view row.entry.table.now) }
{
    match member(row.table, key) {
        Some(value) => boolean(row.place, key, value),
        None => Ok(default),
    }
}

/// Whether the mode at a key is tagged mode, or the default.
pub fn mode_or(default: bool, row: TableRow<'_>, key: &str) -> Result<bool, ScenarioFault>
    ensures { result ≡ defaulted default a_mode row.entry.place key.now (table_view row.entry.table.now) }
{
    match member(row.table, key) {
        Some(value) => mode(row.place, key, value),
        None => Ok(default),
    }
}

/// The description at a key, or the default.
pub fn description_or(
    default: &Text<80>,
    row: TableRow<'_>,
    key: &str,
) -> Result<Text<80>, ScenarioFault>
    ensures { result ≡ defaulted default.now a_description row.entry.place key.now (table_view row.entry.table.now) }
{
    match member(row.table, key) {
        Some(value) => description(row.place, key, value),
        None => Ok(*default),
    }
}

// The group that a value is.
fn group(
    version: DocumentVersion,
    row: RowPlace,
    key: &str,
    value: &Value,
) -> Result<GroupUse, ScenarioFault>
    ensures { result ≡ a_group version (place_of_key row key.now) (view value.now) }
{
    match version {
        DocumentVersion::One => match number(row, key, value, 0, 4294967295) {
            Ok(number) => Ok(GroupUse::Number(number)),
            Err(fault) => Err(fault),
        },
        DocumentVersion::Two => match name(row, key, value) {
            Ok(name) => Ok(GroupUse::Named(name)),
            Err(fault) => Err(fault),
        },
    }
}

/// The group at a key, or the default.
pub fn group_or(
    version: DocumentVersion,
    default: GroupUse,
    row: TableRow<'_>,
    key: &str,
) -> Result<GroupUse, ScenarioFault>
    ensures { result ≡ defaulted default (a_group version) row.entry.place key.now (table_view row.entry.table.now) }
{
    match member(row.table, key) {
        Some(value) => group(version, row.place, key, value),
        None => Ok(default),
    }
}

// A table.
fn table<'a>(row: RowPlace, key: &str, value: &'a Value) -> Result<&'a Table, ScenarioFault>
    ensures { MapsTo (λ t. table_view t.now) result (a_table (place_of_key row key.now) (view value.now)) }
{
    match value.as_table() {
        Some(table) => Ok(table),
        None => Err(row.wrong_kind(key)),
    }
}

/// The table at a key that may be left out.
pub fn optional_table<'a>(row: TableRow<'a>, key: &str) -> Result<Option<&'a Table>, ScenarioFault>
    ensures { MapsTo (λ o. option_map (λ t. table_view t.now) o) result (optional None a_table row.entry.place key.now (table_view row.entry.table.now)) }
{
    match member(row.table, key) {
        Some(value) => match table(row.place, key, value) {
            Ok(table) => Ok(Some(table)),
            Err(fault) => Err(fault),
        },
        None => Ok(None),
    }
}
