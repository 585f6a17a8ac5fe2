//! The text of version 2 of a scenario that was read.
ghost use Rattle.std.specs.Prelude.{string_bytes, IfOk};
ghost use Rattle.migration.specs.Law.{IsMigrated, WasRead};

use crate::document::migrated_text;
use net_base::NoMemory;
use scenario_text::Scenario;
use std::alloc::Global;

/// A text of version 2 of a scenario, which is read as the same scenario.
///
/// The scenario was read from a document. `NoMemory` says nothing of the scenario.
pub fn migrate(alloc: Global, scenario: &Scenario) -> Result<String, NoMemory>
    requires { WasRead scenario.now }
    ensures { IfOk result (λ text. IsMigrated scenario.now (string_bytes text)) }
{
    migrated_text(alloc, &scenario.plan, scenario.commands.as_slice())
}
