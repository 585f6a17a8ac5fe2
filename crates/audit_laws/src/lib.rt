//! What an auditor answers to the report of a run. This crate runs nothing: its definitions stand in `specs/`, and each function below
//! has an empty body and a law as its contract.
#![tactic(auto)]

ghost use Rattle.audit_laws.specs.Laws.{ReportsOfRunsGetYes, ReportsOfRunsTellThem, RunsMeetRules};

/// The report of a run of a checked plan tells the trace of the run, where its entries can be read. That they can is a law of `report_laws`,
/// and of each report of `replay` a clause of the program says the whole.
pub fn reports_of_runs_tell_them()
    ensures { ReportsOfRunsTellThem }
{}

/// The trace of each run of a checked plan meets the rules of an auditor: each frame that left had entered before at a circuit of the
/// same service, as the same frame; nothing went from one mesh wire to another one (RFC 4762 section 4.4); and each flooded frame of
/// a service that is seen calm left exactly once at each other circuit that is on.
pub fn runs_meet_rules()
    ensures { RunsMeetRules }
{}

/// So the report of a run of a checked plan gets a yes of the auditor, unless memory is refused.
pub fn reports_of_runs_get_yes()
    ensures { ReportsOfRunsGetYes }
{}
