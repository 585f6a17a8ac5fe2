//! The top of a document: its version and its arrays.
ghost use Rattle.std.specs.Prelude.{◌≡◌, ◌≤◌, [], true, codes, length, IfNone, IfOk, IfSome};
ghost use Rattle.toml.specs.{Data.{no_items, as_array}, View.{view, items_view, table_view}};
ghost use Rattle.command_text.specs.{Events.{most_events}, Places.{top_row}, Reading.{MapsTo}};
ghost use Rattle.scenario_text.specs.Values.{an_array, needed, defaulted};
ghost use Rattle.scenario_text.specs.Top.{a_version, few, few_in, groups_at, arrays_at, arrays_in};
ghost use Rattle.scenario_text.specs.Arrays.{arrays_of, has_kind, with_last_at, HasLimits};

use crate::document_version::DocumentVersion;
use crate::item_kind::ItemKind;
use crate::keys::only_known_keys;
use crate::limits::{
    MOST_CIRCUITS, MOST_EDGES, MOST_EVENTS, MOST_GROUPS, MOST_SERVICES, MOST_WIRES,
};
use crate::members::{member, needed_value};
use crate::values::items;
use command_text::{RowPlace, ScenarioFault};
use net_base::Table as TableKind;
use std::alloc::Global;
use toml::{Table, Value};

/// The version and the arrays of a document, each in the order of its rows.
#[derive(Clone, Copy)]
pub struct Arrays<'a> {
    pub version: DocumentVersion,
    pub events: &'a [Value],
    pub edges: &'a [Value],
    pub services: &'a [Value],
    pub groups: &'a [Value],
    pub circuits: &'a [Value],
    pub wires: &'a [Value],
}

// The version; one that is neither 1 nor 2 is refused.
fn version(table: &Table) -> Result<DocumentVersion, ScenarioFault>
    ensures { result ≡ (needed a_version top_row (codes "version") (table_view table.now)) }
{
    let place = RowPlace::top();
    match needed_value(place, table, "version") {
        Ok(value) => match value.as_integer() {
            Some(1) => Ok(DocumentVersion::One),
            Some(2) => Ok(DocumentVersion::Two),
            Some(_) => Err(ScenarioFault::Version),
            None => Err(place.wrong_kind("version")),
        },
        Err(fault) => Err(fault),
    }
}

// The items of the array at a key of the top, none where it is absent.
fn items_at<'a>(kind: ItemKind, table: &'a Table, key: &str) -> Result<&'a [Value], ScenarioFault>
    ensures { MapsTo (λ items. items_view items.now) result (defaulted no_items (an_array (has_kind kind)) top_row key.now (table_view table.now)) }
{
    match member(table, key) {
        Some(value) => items(RowPlace::top(), key, kind, value),
        None => Ok(&[]),
    }
}

// The groups, which version 2 alone has.
fn groups(version: DocumentVersion, table: &Table) -> Result<&[Value], ScenarioFault>
    ensures { MapsTo (λ items. items_view items.now) result (groups_at version (table_view table.now)) }
{
    match version {
        DocumentVersion::One => Ok(&[]),
        DocumentVersion::Two => items_at(ItemKind::Tables, table, "group"),
    }
}

// The arrays with the groups, the circuits and the wires that stand at the keys of the top.
#[tactic(auto, unfolding(crate::specs::Arrays::with_last_at))]
fn with_last<'a>(arrays: Arrays<'a>, table: &'a Table) -> Result<Arrays<'a>, ScenarioFault>
    ensures { MapsTo arrays_of result (with_last_at (arrays_of arrays.entry) (table_view table.now)) }
{
    let groups = groups(arrays.version, table)?;
    let circuits = items_at(ItemKind::Tables, table, "circuit")?;
    match items_at(ItemKind::Tables, table, "wire") {
        Ok(wires) => Ok(Arrays {
            groups,
            circuits,
            wires,
            ..arrays
        }),
        Err(fault) => Err(fault),
    }
}

// The arrays that stand at the keys of the top.
#[tactic(auto, unfolding(crate::specs::Top::arrays_at, crate::specs::Arrays::with_last_at))]
fn top_arrays(version: DocumentVersion, table: &Table) -> Result<Arrays<'_>, ScenarioFault>
    ensures { MapsTo arrays_of result (arrays_at version (table_view table.now)) }
{
    let events = items_at(ItemKind::Strings, table, "events")?;
    let edges = items_at(ItemKind::Tables, table, "edge")?;
    match items_at(ItemKind::Tables, table, "service") {
        Ok(services) => {
            let arrays = Arrays {
                version,
                events,
                edges,
                services,
                groups: &[],
                circuits: &[],
                wires: &[],
            };
            with_last(arrays, table)
        }
        Err(fault) => Err(fault),
    }
}

// Refuses an array of more items than the limit.
#[tactic(auto, using(crate::proofs::RowLemmas::items_length_view))]
fn check_few(limit: u32, table: TableKind, array: &[Value]) -> Result<(), ScenarioFault>
    ensures exact { MapsTo (λ _. true) result (few limit table (items_view array.now)) }
    ensures few { IfOk result (λ _. length array.now ≤ limit) }
{
    if array.len() > limit as usize {
        return Err(ScenarioFault::TooMany { table, limit });
    }
    Ok(())
}

// Refuses arrays of which one has too many items.
#[tactic(auto, unfolding(crate::specs::Top::few_in))]
fn check_limits(arrays: &Arrays<'_>) -> Result<(), ScenarioFault>
    ensures exact { MapsTo (λ _. true) result (few_in (arrays_of arrays.now)) }
    ensures few { IfOk result (λ _. HasLimits arrays.now) }
{
    check_few(MOST_EVENTS, TableKind::Events, arrays.events)?;
    check_few(MOST_EDGES, TableKind::Edge, arrays.edges)?;
    check_few(MOST_SERVICES, TableKind::Service, arrays.services)?;
    check_few(MOST_GROUPS, TableKind::Group, arrays.groups)?;
    check_few(MOST_CIRCUITS, TableKind::Circuit, arrays.circuits)?;
    match check_few(MOST_WIRES, TableKind::Wire, arrays.wires) {
        Ok(()) => Ok(()),
        Err(fault) => Err(fault),
    }
}

/// The arrays of a document of version 1 or 2.
#[tactic(auto, unfolding(crate::specs::Top::arrays_in))]
pub fn document_arrays(table: &Table) -> Result<Arrays<'_>, ScenarioFault>
    ensures exact { MapsTo arrays_of result (arrays_in (table_view table.now)) }
    ensures few { IfOk result HasLimits }
{
    let version = version(table)?;
    let arrays = top_arrays(version, table)?;
    only_known_keys(version, TableKind::Top, RowPlace::top(), table)?;
    check_limits(&arrays)?;
    Ok(arrays)
}

// The items of an array; nothing else has any.
fn items_in(alloc: Global, value: Option<Value>) -> Vec<Value>
    ensures array { IfSome value (λ v. IfSome (as_array (view v)) (λ items. items_view result.items ≡ items)) }
    ensures none { IfNone value (result.items ≡ []) }
{
    match value {
        Some(Value::Array(array)) => array,
        Some(_) | None => Vec::new(alloc),
    }
}

/// The events of a document whose arrays were found. The rest of the document is dropped.
pub fn take_events(alloc: Global, mut table: Table) -> Vec<Value>
    ensures exact { IfOk (arrays_in (table_view table)) (λ arrays. items_view result.items ≡ arrays.events) }
    ensures few { IfOk (arrays_in (table_view table)) (λ _. length result.items ≤ most_events) }
{
    items_in(alloc, table.remove("events"))
}
