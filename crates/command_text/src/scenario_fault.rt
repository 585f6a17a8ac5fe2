//! Why a text is no scenario.

use net_base::{NoMemory, Place, PlanFault, Table};
use std::alloc::{AllocError, AllocFailed};
use thiserror::Error;

/// Why a text was not read as a scenario. A fault's own text is the front of what the program prints for it: its name, and
/// the numbers of a wrong word.
#[derive(Clone, Copy, Debug, PartialEq, Eq, Error)]
pub enum ScenarioFault {
    /// The bytes are no TOML document; a TOML document is UTF-8.
    #[error("NotToml")]
    NotToml,
    /// A key that a row has to have is absent.
    #[error("Missing")]
    Missing(Place),
    /// The value at a key is of another kind.
    #[error("WrongKind")]
    WrongKind(Place),
    /// A key that no row of the table has.
    #[error("UnknownKey")]
    UnknownKey(Place),
    /// A word of an event is missing, one too many, or not what has to stand there. Both numbers count from 1.
    #[error("BadWord {event} {word}")]
    BadWord { event: u32, word: u32 },
    /// A table has more rows, or the document more events, than the limit.
    #[error("TooMany")]
    TooMany { table: Table, limit: u32 },
    /// The version is neither 1 nor 2.
    #[error("Version")]
    Version,
    /// A value outside its range, a name that no row has, or a fault of the plan as a whole.
    #[error("Plan")]
    Plan(PlanFault),
    /// Memory was refused.
    #[error("out of memory")]
    NoMemory,
}

impl From<NoMemory> for ScenarioFault {
    ghost use Rattle.std.specs.Prelude.{◌≡◌};
    ghost use Rattle.command_text.specs.declared.scenario_fault.ScenarioFault.TheVariants as fault;

    ghost from_gives = { λ _ e. e ≡ fault.NoMemory };

    fn from(_: NoMemory) -> Self {
        ScenarioFault::NoMemory
    }
}

impl From<AllocError> for ScenarioFault {
    ghost use Rattle.std.specs.Prelude.{◌≡◌};
    ghost use Rattle.command_text.specs.declared.scenario_fault.ScenarioFault.TheVariants as fault;

    ghost from_gives = { λ _ e. e ≡ fault.NoMemory };

    fn from(_: AllocError) -> Self {
        ScenarioFault::NoMemory
    }
}

impl<T: Drop> From<AllocFailed<T>> for ScenarioFault {
    ghost use Rattle.std.specs.Prelude.{◌≡◌};
    ghost use Rattle.command_text.specs.declared.scenario_fault.ScenarioFault.TheVariants as fault;

    ghost from_gives = { λ _ e. e ≡ fault.NoMemory };

    fn from(_: AllocFailed<T>) -> Self {
        ScenarioFault::NoMemory
    }
}
