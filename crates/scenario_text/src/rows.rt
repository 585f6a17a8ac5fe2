//! Rows of the document's tables.
ghost use Rattle.std.specs.Prelude.{◌≡◌, ◌<◌, ◌≤◌, ◌+◌, length, IfOk};
ghost use Rattle.toml.specs.View.{view, items_view};
ghost use Rattle.command_text.specs.Reading.{Gives};
ghost use Rattle.scenario_text.specs.{Rows.{row_in, rows_in}, Top.{most_groups}};

use crate::document_version::DocumentVersion;
use crate::row::Row;
use crate::table_row::TableRow;
use command_text::{RowPlace, ScenarioFault};
use net_base::{List, Table as TableKind};
use std::alloc::Global;
use toml::Value;

/// The place of a row of a table, which is counted from 0 here and from 1 there.
pub fn row_place(table: TableKind, row: usize) -> RowPlace
    requires { row < 100000 }
    ensures { result ≡ record { table = table; index = row + 1 } }
{
    RowPlace {
        table,
        index: row as u32 + 1,
    }
}

// The row that a value is.
fn row_at<T: Row>(
    alloc: Global,
    version: DocumentVersion,
    place: RowPlace,
    value: &Value,
) -> Result<T, ScenarioFault>
    ensures { Gives result (row_in (T.row_of version) place (view value.now)) }
{
    match value.as_table() {
        Some(table) => T::read(
            alloc,
            TableRow {
                version,
                place,
                table,
            },
        ),
        None => Err(place.wrong_kind("")),
    }
}

/// The rows of an array of tables.
pub fn rows<T: Row>(
    alloc: Global,
    version: DocumentVersion,
    table: TableKind,
    array: &[Value],
) -> Result<List<T>, ScenarioFault>
    requires { length array.now ≤ most_groups }
    ensures exact { Gives result (rows_in table (T.row_of version) 1 (items_view array.now)) }
    ensures many { IfOk result (λ rows. length rows ≡ length array.now) }
{
    let mut rows = List::new(alloc);
    for (i, value) in array.iter().enumerate() {
        let row = row_at::<T>(alloc, version, row_place(table, i), value)?;
        rows.push(row)?;
    }
    Ok(rows)
}
