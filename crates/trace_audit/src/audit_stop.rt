//! Why a report is not good.

use net_base::NoMemory;
use report_entries::ReportFault;

/// Why an audit stopped. Lines count from 1. Of the rules that fail the first of this list is told, at its first line.
#[derive(Clone, Copy, Debug, PartialEq, Eq)]
pub enum AuditStop {
    /// The first line that breaks the form of a report.
    Form { line: u64 },
    /// The line of a frame that left and had not entered before, at a circuit of the same service, as the same inner frame.
    Isolated { line: u64 },
    /// The line of a packet that was sent from one mesh wire to another one (RFC 4762 section 4.4).
    Split { line: u64 },
    /// The `in` line of a flooded frame that entered a calm service and was not seen exactly once.
    Once { line: u64 },
    /// Memory was refused.
    NoMemory,
}

impl From<NoMemory> for AuditStop {
    ghost use Rattle.std.specs.{Prelude.{◌≡◌}, Prelude.{◌≡◌}};
    ghost use Rattle.trace_audit.specs.declared.audit_stop.AuditStop.TheVariants as stop;

    ghost from_gives = { λ _ e. e ≡ stop.NoMemory };

    fn from(_: NoMemory) -> Self {
        AuditStop::NoMemory
    }
}

impl From<ReportFault> for AuditStop {
    ghost use Rattle.std.specs.{Prelude.{◌≡◌}, Prelude.{◌≡◌}};
    ghost use Rattle.trace_audit.specs.Heard.{fault_stop};

    ghost from_gives = { λ fault e. e ≡ fault_stop fault };

    fn from(fault: ReportFault) -> Self {
        match fault {
            ReportFault::Form { line } => AuditStop::Form { line },
            ReportFault::NoMemory => AuditStop::NoMemory,
        }
    }
}
