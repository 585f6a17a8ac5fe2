//! Places of rows, and the faults that have one.
ghost use Rattle.std.specs.Prelude.{◌≡◌};
ghost use Rattle.net_base.specs.declared.plan.plan_fault.PlanFault.{PlanFault};
ghost use Rattle.command_text.specs.Places.{place_of_key, top_row};

use crate::ScenarioFault;
use crate::key::key_text;
use net_base::{Place, PlanFault, Table};

/// Where a row stands.
#[derive(Clone, Copy)]
pub struct RowPlace {
    pub table: Table,
    /// The row, counted from 1; 0 for the top of the document.
    pub index: u32,
}

impl RowPlace {
    /// The top of the document.
    pub fn top() -> RowPlace
        ensures { result ≡ top_row }
    {
        RowPlace {
            table: Table::Top,
            index: 0,
        }
    }

    /// The place of a key of this row.
    pub fn place(self, key: &str) -> Place
        ensures { result ≡ place_of_key self key.now }
    {
        Place {
            table: self.table,
            index: self.index,
            key: key_text(key.as_bytes()),
        }
    }

    /// The fault that the key is absent.
    pub fn missing(self, key: &str) -> ScenarioFault
        ensures { result ≡ ScenarioFault.Missing (place_of_key self key.now) }
    {
        ScenarioFault::Missing(self.place(key))
    }

    /// The fault that the value at the key is of another kind.
    pub fn wrong_kind(self, key: &str) -> ScenarioFault
        ensures { result ≡ ScenarioFault.WrongKind (place_of_key self key.now) }
    {
        ScenarioFault::WrongKind(self.place(key))
    }

    /// The fault that no row of the table has such a key.
    pub fn unknown_key(self, key: &str) -> ScenarioFault
        ensures { result ≡ ScenarioFault.UnknownKey (place_of_key self key.now) }
    {
        ScenarioFault::UnknownKey(self.place(key))
    }

    /// The fault that the value at the key is outside its range.
    pub fn out_of_range(self, key: &str) -> ScenarioFault
        ensures { result ≡ ScenarioFault.Plan (PlanFault.OutOfRange (place_of_key self key.now)) }
    {
        ScenarioFault::Plan(PlanFault::OutOfRange(self.place(key)))
    }

    /// The fault that the value at the key names a row that is not there.
    pub fn unknown_name(self, key: &str) -> ScenarioFault
        ensures { result ≡ ScenarioFault.Plan (PlanFault.UnknownName (place_of_key self key.now)) }
    {
        ScenarioFault::Plan(PlanFault::UnknownName(self.place(key)))
    }

    /// The fault that the name at the key stood before.
    pub fn repeated_name(self, key: &str) -> ScenarioFault
        ensures { result ≡ ScenarioFault.Plan (PlanFault.RepeatedName (place_of_key self key.now)) }
    {
        ScenarioFault::Plan(PlanFault::RepeatedName(self.place(key)))
    }
}
