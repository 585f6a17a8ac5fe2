//! Items of an array.
ghost use Rattle.std.specs.Prelude.{◌≡◌, ◌++◌, [], ◌∷◌, map, string_bytes, OnOk};
ghost use Rattle.toml.specs.{Data.{string, table}, View.{view, table_view}};

use net_values::NoMemory;
use toml::{Table, Value};

/// Adds a table.
pub fn push_table(values: &mut Vec<Value>, row: Table) -> Result<(), NoMemory>
    ensures { OnOk result (map view values.new.items ≡ map view values.old.items ++ table (table_view row) ∷ []) }
{
    match values.push(Value::Table(row)) {
        Ok(()) => Ok(()),
        Err(_) => Err(NoMemory),
    }
}

/// Adds a text.
pub fn push_text(values: &mut Vec<Value>, text: String) -> Result<(), NoMemory>
    ensures { OnOk result (map view values.new.items ≡ map view values.old.items ++ string (string_bytes text) ∷ []) }
{
    match values.push(Value::String(text)) {
        Ok(()) => Ok(()),
        Err(_) => Err(NoMemory),
    }
}
