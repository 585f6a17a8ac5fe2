//! The report of a run as text (format version 1): a line for each entry of a trace, in the words of the plan, and how the
//! run ended.
//!
//! `specs/Rows.antt` has a row for each entry without octets, and `specs/Report.antt` the lines.
#![tactic(auto)]

mod counts;
mod ending;
mod entry;
mod event;
mod last_line;
mod report;
mod rows;
mod sent_words;

pub use counts::Counts;
pub use ending::Ending;
pub use entry::put_entry;
pub use last_line::put_last_line;
pub use report::{put_entries, put_report};
pub use rows::{entry_made, entry_shapes};
