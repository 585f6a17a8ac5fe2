//! The kinds of values that stand at keys.
ghost use Rattle.std.specs.{Prelude.{◌≡◌, ◌≤◌, IfOk}, List.{list_all}};
ghost use Rattle.toml.specs.View.{view, items_view};
ghost use Rattle.command_text.specs.{Places.{place_of_key}, Reading.{Gives, MapsTo}};
ghost use Rattle.scenario_text.specs.Values.{meant, a_text, a_name, quad_of, an_address, a_number, a_boolean, a_class, a_mode, a_description, an_array, names_in, a_path, all_items};
ghost use Rattle.scenario_text.specs.Arrays.{has_kind};

use crate::item_kind::ItemKind;
use command_text::{RowPlace, ScenarioFault, is_same};
use net_base::{Addr, Class, List, Name, Text};
use std::alloc::Global;
use std::net::Ipv4Addr;
use toml::Value;

// A string.
fn text<'a>(row: RowPlace, key: &str, value: &'a Value) -> Result<&'a str, ScenarioFault>
    ensures { MapsTo (λ t. t.now) result (a_text (place_of_key row key.now) (view value.now)) }
{
    match value.as_str() {
        Some(text) => Ok(text),
        None => Err(row.wrong_kind(key)),
    }
}

// The value that is meant, where there is one in the range of the key.
fn meant<T: Drop>(row: RowPlace, key: &str, value: Option<T>) -> Result<T, ScenarioFault>
    ensures { result ≡ meant (place_of_key row key.now) value }
{
    match value {
        Some(value) => Ok(value),
        None => Err(row.out_of_range(key)),
    }
}

/// A string that is a name.
pub fn name(row: RowPlace, key: &str, value: &Value) -> Result<Name, ScenarioFault>
    ensures { result ≡ a_name (place_of_key row key.now) (view value.now) }
{
    match text(row, key, value) {
        Ok(text) => meant(row, key, Name::read(text)),
        Err(fault) => Err(fault),
    }
}

// The octets of a dotted quad.
fn quad(text: &str) -> Option<[u8; 4]>
    ensures { result ≡ quad_of text.now }
{
    match text.parse::<Ipv4Addr>() {
        Ok(address) => Some(address.octets()),
        Err(_) => None,
    }
}

/// A string that is a dotted quad without leading zeros, not 0.0.0.0.
pub fn address(row: RowPlace, key: &str, value: &Value) -> Result<Addr, ScenarioFault>
    ensures { result ≡ an_address (place_of_key row key.now) (view value.now) }
{
    match text(row, key, value) {
        Ok(text) => match quad(text) {
            Some(octets) if octets != [0, 0, 0, 0] => Ok(Addr(octets)),
            _ => Err(row.out_of_range(key)),
        },
        Err(fault) => Err(fault),
    }
}

/// An integer from low to high.
pub fn number(
    row: RowPlace,
    key: &str,
    value: &Value,
    low: u32,
    high: u32,
) -> Result<u32, ScenarioFault>
    ensures exact { result ≡ a_number low high (place_of_key row key.now) (view value.now) }
    ensures within { IfOk result (λ n. (low ≤ n) × (n ≤ high)) }
{
    match value.as_integer() {
        Some(integer) => {
            if integer < low as i64 || integer > high as i64 {
                return Err(row.out_of_range(key));
            }
            Ok(integer as u32)
        }
        None => Err(row.wrong_kind(key)),
    }
}

/// A boolean.
pub fn boolean(row: RowPlace, key: &str, value: &Value) -> Result<bool, ScenarioFault>
    ensures { result ≡ a_boolean (place_of_key row key.now) (view value.now) }
{
    match value.as_bool() {
        Some(boolean) => Ok(boolean),
        None => Err(row.wrong_kind(key)),
    }
}

/// The string `mesh` or `spoke`.
pub fn class(row: RowPlace, key: &str, value: &Value) -> Result<Class, ScenarioFault>
    ensures { result ≡ a_class (place_of_key row key.now) (view value.now) }
{
    match text(row, key, value) {
        Ok(text) if is_same(text, "mesh") => Ok(Class::Mesh),
        Ok(text) if is_same(text, "spoke") => Ok(Class::Spoke),
        Ok(_) => Err(row.out_of_range(key)),
        Err(fault) => Err(fault),
    }
}

/// The string `raw` or `tagged`, and whether it is the latter.
pub fn mode(row: RowPlace, key: &str, value: &Value) -> Result<bool, ScenarioFault>
    ensures { result ≡ a_mode (place_of_key row key.now) (view value.now) }
{
    match text(row, key, value) {
        Ok(text) if is_same(text, "raw") => Ok(false),
        Ok(text) if is_same(text, "tagged") => Ok(true),
        Ok(_) => Err(row.out_of_range(key)),
        Err(fault) => Err(fault),
    }
}

/// A string of at most 80 octets.
#[tactic(auto, using(crate::proofs::DocumentLemmas::text_is_utf8))]
pub fn description(row: RowPlace, key: &str, value: &Value) -> Result<Text<80>, ScenarioFault>
    ensures { result ≡ a_description (place_of_key row key.now) (view value.now) }
{
    match text(row, key, value) {
        Ok(text) => meant(row, key, Text::read(text.as_bytes())),
        Err(fault) => Err(fault),
    }
}

// Whether a value is of a kind.
fn is_of(kind: ItemKind, value: &Value) -> bool
    ensures { result ≡ has_kind kind (view value.now) }
{
    match kind {
        ItemKind::Strings => value.is_str(),
        ItemKind::Tables => value.is_table(),
    }
}

// Whether all are of a kind, one by one.
fn each_is_of(kind: ItemKind, array: &[Value]) -> bool
    ensures { result ≡ list_all (λ v. has_kind kind (view v)) array.now }
{
    array.iter().all(|value| is_of(kind, value))
}

// Whether all are of a kind.
fn are_of(kind: ItemKind, array: &[Value]) -> bool
    ensures { result ≡ all_items (has_kind kind) (items_view array.now) }
{
    each_is_of(kind, array)
}

/// An array of items of a kind.
pub fn items<'a>(
    row: RowPlace,
    key: &str,
    kind: ItemKind,
    value: &'a Value,
) -> Result<&'a [Value], ScenarioFault>
    ensures { MapsTo (λ items. items_view items.now) result (an_array (has_kind kind) (place_of_key row key.now) (view value.now)) }
{
    match value.as_array() {
        Some(array) if are_of(kind, array.as_slice()) => Ok(array.as_slice()),
        _ => Err(row.wrong_kind(key)),
    }
}

// The names that the items of an array are.
fn names(
    alloc: Global,
    row: RowPlace,
    key: &str,
    array: &[Value],
) -> Result<List<Name>, ScenarioFault>
    ensures { Gives result (names_in (place_of_key row key.now) (items_view array.now)) }
{
    let mut names = List::new(alloc);
    for value in array {
        let name = name(row, key, value)?;
        names.push(name)?;
    }
    Ok(names)
}

/// An array of strings that are names.
pub fn path(
    alloc: Global,
    row: RowPlace,
    key: &str,
    value: &Value,
) -> Result<List<Name>, ScenarioFault>
    ensures { Gives result (a_path (place_of_key row key.now) (view value.now)) }
{
    match items(row, key, ItemKind::Strings, value) {
        Ok(items) => names(alloc, row, key, items),
        Err(fault) => Err(fault),
    }
}
