//! An auditor of reports: it reads the report of a run, of this program or of another one, and judges it by its entries alone.
#![tactic(auto)]

mod arrivals;
mod audit_stop;
mod entered_frame;
mod laws;
mod path_audit;
mod report_audit;
mod rule_audit;

pub use audit_stop::AuditStop;
pub use laws::{crossings_are_told, good_reports_get_yes, strays_are_told};
pub use report_audit::audit;
