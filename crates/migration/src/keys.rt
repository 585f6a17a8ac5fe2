//! Keys of a table.
ghost use Rattle.std.specs.Prelude.{◌≡◌, pos, map, OnOk};
ghost use Rattle.toml.specs.{Data.{no_members, string, integer, boolean, array, table}, View.{view, items_of, table_view}};
ghost use Rattle.migration.specs.Tables.{put, put_some, put_told};

use net_values::NoMemory;
use std::alloc::Global;
use toml::{Table, Value};

/// A table without keys.
pub fn no_keys(alloc: Global) -> Table
    ensures { table_view result ≡ no_members }
{
    Table::new(alloc)
}

// Puts a value at a key, in place of what stood there.
#[tactic(auto, using(crate::proofs::PutLemmas::put_view))]
fn put_value(alloc: Global, table: &mut Table, key: &str, value: Value) -> Result<(), NoMemory>
    ensures { OnOk result (table_view table.new ≡ put key.now (view value) (table_view table.old)) }
{
    let key = String::from_str(alloc, key)?;
    match table.insert(key, value) {
        Ok(_) => Ok(()),
        Err(_) => Err(NoMemory),
    }
}

/// Puts a text at a key.
pub fn put_text(alloc: Global, table: &mut Table, key: &str, text: &str) -> Result<(), NoMemory>
    ensures { OnOk result (table_view table.new ≡ put key.now (string text.now) (table_view table.old)) }
{
    let value = Value::string(alloc, text)?;
    put_value(alloc, table, key, value)
}

/// Puts a number at a key.
pub fn put_number(alloc: Global, table: &mut Table, key: &str, number: u32) -> Result<(), NoMemory>
    ensures { OnOk result (table_view table.new ≡ put key.now (integer (pos number)) (table_view table.old)) }
{
    put_value(alloc, table, key, Value::from(number))
}

/// Puts a number at a key, where it is told; else the table stays.
pub fn put_told(
    alloc: Global,
    table: &mut Table,
    key: &str,
    number: Option<u32>,
) -> Result<(), NoMemory>
    ensures { OnOk result (table_view table.new ≡ put_told key.now number (table_view table.old)) }
{
    match number {
        Some(number) => put_number(alloc, table, key, number),
        None => Ok(()),
    }
}

/// Puts a boolean at a key.
pub fn put_boolean(alloc: Global, table: &mut Table, key: &str, on: bool) -> Result<(), NoMemory>
    ensures { OnOk result (table_view table.new ≡ put key.now (boolean on) (table_view table.old)) }
{
    put_value(alloc, table, key, Value::from(on))
}

/// Puts a table at a key.
pub fn put_table(alloc: Global, outer: &mut Table, key: &str, inner: Table) -> Result<(), NoMemory>
    ensures { OnOk result (table_view outer.new ≡ put key.now (table (table_view inner)) (table_view outer.old)) }
{
    put_value(alloc, outer, key, Value::Table(inner))
}

/// Puts an array at a key.
pub fn put_array(
    alloc: Global,
    table: &mut Table,
    key: &str,
    values: Vec<Value>,
) -> Result<(), NoMemory>
    ensures { OnOk result (table_view table.new ≡ put key.now (array (items_of (map view values.items))) (table_view table.old)) }
{
    put_value(alloc, table, key, Value::Array(values))
}

/// Puts an array at a key, where it has items; else the table stays.
pub fn put_some(
    alloc: Global,
    table: &mut Table,
    key: &str,
    values: Vec<Value>,
) -> Result<(), NoMemory>
    ensures { OnOk result (table_view table.new ≡ put_some key.now (map view values.items) (table_view table.old)) }
{
    if values.is_empty() {
        return Ok(());
    }
    put_array(alloc, table, key, values)
}
