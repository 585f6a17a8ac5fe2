//! What is known of a trace is what the rules say of it.
ghost use Rattle.trace_audit.specs.{Laws.{CrossingsAreTold, StraysAreTold}, Yes.{GoodReportsGetYes}};

/// No line of a stray frame is known exactly where each frame that left had entered before, at a circuit of the same service, as the
/// same inner frame.
pub fn strays_are_told()
    ensures { StraysAreTold }
{}

/// No line of a crossing packet is known exactly where what came by one mesh wire never went out by another one (RFC 4762 section 4.4).
pub fn crossings_are_told()
    ensures { CrossingsAreTold }
{}

/// No rule is told of a report that meets all: `audit` answers yes to it, unless memory is refused.
pub fn good_reports_get_yes()
    ensures { GoodReportsGetYes }
{}
