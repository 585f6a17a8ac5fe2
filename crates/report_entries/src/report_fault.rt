//! Why a report is not read.
ghost use Rattle.std.specs.Prelude.{◌≡◌};
ghost use Rattle.report_entries.specs.declared.report_fault.ReportFault.TheVariants as fault;

use net_base::NoMemory;

/// Why a report was not read.
#[derive(Clone, Copy, Debug, PartialEq, Eq)]
pub enum ReportFault {
    /// This line breaks the form of a report, and none before it does. Lines count from 1.
    Form { line: u64 },
    /// Memory was refused.
    NoMemory,
}

impl From<NoMemory> for ReportFault {
    ghost from_gives = { λ _ e. e ≡ fault.NoMemory };

    fn from(_: NoMemory) -> Self {
        ReportFault::NoMemory
    }
}
