//! The reader of scenarios on whole documents.

mod documents;
mod ends;
mod events;
mod rows;
mod tables;
