//! Why a line is not read.
ghost use Rattle.std.specs.Prelude.{◌≡◌};
ghost use Rattle.report_entries.specs.declared.unread.Unread.TheVariants as unread;

use net_base::NoMemory;
use std::alloc::{AllocError, AllocFailed};

/// Why a line was not read.
#[derive(Clone, Copy, Debug, PartialEq, Eq)]
pub enum Unread {
    /// It is the line of no entry.
    NoEntry,
    /// Memory was refused.
    NoMemory,
}

impl From<NoMemory> for Unread {
    ghost from_gives = { λ _ e. e ≡ unread.NoMemory };

    fn from(_: NoMemory) -> Self {
        Unread::NoMemory
    }
}

impl From<AllocError> for Unread {
    ghost from_gives = { λ _ e. e ≡ unread.NoMemory };

    fn from(_: AllocError) -> Self {
        Unread::NoMemory
    }
}

impl<T: Drop> From<AllocFailed<T>> for Unread {
    ghost from_gives = { λ _ e. e ≡ unread.NoMemory };

    fn from(_: AllocFailed<T>) -> Self {
        Unread::NoMemory
    }
}
