//! The entries that the lines of a report tell, one by one: of a report of this program or of another one (format version 1).
//!
//! `specs/Report.antt` has what a whole report tells, or the first line that breaks its form.
#![tactic(auto)]

mod cut;
mod entry;
mod entry_line;
mod event;
mod last_line;
mod laws;
mod line_sink;
mod line_writer;
mod passed;
mod report_fault;
mod report_reader;
mod tally;
mod told_words;
mod unread;
mod values;

pub use laws::{
    lines_are_read, lines_are_told_apart, lines_name_places, reads_lines, reports_are_read,
    reports_are_told, reports_are_told_apart, traces_are_told,
};
pub use report_fault::ReportFault;
pub use report_reader::ReportReader;
pub use tally::Tally;
pub use unread::Unread;
