//! The names of groups.
ghost use Rattle.std.specs.Prelude.{◌≡◌, ◌≤◌, true, length};
ghost use Rattle.command_text.specs.Reading.{MapsTo};
ghost use Rattle.scenario_text.specs.{References.{group_names, groups_differ}, Top.{most_groups}};

use crate::group_rows::GroupRows;
use crate::rows::row_place;
use command_text::ScenarioFault;
use net_base::Table as TableKind;

/// Refuses the first group that has the name of an earlier one.
pub fn check_groups(groups: GroupRows<'_, '_>) -> Result<(), ScenarioFault>
    requires named { groups.index.now ≡ group_names groups.rows.now }
    requires few { length groups.rows.now ≤ most_groups }
    ensures { MapsTo (λ _. true) result (groups_differ groups.entry.rows.now) }
{
    match groups.index.first_repeat() {
        Some(row) => Err(row_place(TableKind::Group, row).repeated_name("name")),
        None => Ok(()),
    }
}
