//! Rows that others name.
ghost use Rattle.std.specs.Prelude.{◌≡◌, ◌<◌, length, IfOk};
ghost use Rattle.scenario_text.specs.References.{named};

use command_text::{RowPlace, ScenarioFault};
use net_base::Name;
use plan_names::NameIndex;

/// The place of a name that a row has at a key. `UnknownName` comes exactly where it is not among the names.
pub fn named_place(
    row: RowPlace,
    key: &str,
    names: &NameIndex<'_>,
    name: &Name,
) -> Result<u16, ScenarioFault>
    ensures place { result ≡ named row key.now names.now name.now }
    ensures within { IfOk result (λ place. place < length names.now) }
{
    match names.place(name.as_slice()) {
        Some(place) => Ok(place),
        None => Err(row.unknown_name(key)),
    }
}
