//! The auditor: reports made by hand, with what is wrong in each.

mod once_rows;
mod reports;
mod rows;
mod worked_rows;
