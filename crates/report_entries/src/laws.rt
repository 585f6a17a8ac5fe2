//! A text is read as the trace of which it is the report.
ghost use Rattle.report_entries.specs.Laws.{LinesAreRead, LinesAreToldApart, LinesNamePlaces, ReadsLines, ReportsAreRead, ReportsAreTold, ReportsAreToldApart, TracesAreTold};

/// Two lists of lines, whose words have no blank and no line feed, have one text only where they are the same.
#[tactic(auto, using(crate::proofs::CutLemmas::texts_same))]
pub fn lines_are_told_apart()
    ensures { LinesAreToldApart }
{}

/// The line of an entry that names places of a checked plan is read as this entry.
#[tactic(auto, using(crate::proofs::FoundLemmas::lines_read))]
pub fn lines_are_read()
    ensures { LinesAreRead }
{}

/// What is read of a line is an entry of which it is the line.
#[tactic(auto, using(crate::proofs::ReadLemmas::reads_line))]
pub fn reads_lines()
    ensures { ReadsLines }
{}

/// What is read of a line names places of the plan, and its numbers are in the ranges of its entry.
#[tactic(auto, using(crate::proofs::ReadLemmas::named_entry))]
pub fn lines_name_places()
    ensures { LinesNamePlaces }
{}

/// The report of entries that name places of a checked plan is read as these, behind any right last line.
#[tactic(auto, using(crate::proofs::ReportFoundLemmas::report_read))]
pub fn reports_are_read()
    ensures { ReportsAreRead }
{}

/// The trace that is told of a text is one of which it is the report.
#[tactic(auto, using(crate::proofs::TraceLemmas::read_tells))]
pub fn traces_are_told()
    ensures { TracesAreTold }
{}

/// A text that is the report of a trace tells this trace.
pub fn reports_are_told()
    ensures { ReportsAreTold }
{}

/// A text is the report of one trace at most: traces whose entries name places of one checked plan are the same where the lines of
/// their reports are.
pub fn reports_are_told_apart()
    ensures { ReportsAreToldApart }
{}
