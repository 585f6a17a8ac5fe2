//! The crates of LDP and of pseudowires.

mod labels;
pub mod pdus;
mod rings;
mod sessions;
mod spokes;
mod statuses;
mod stitches;
mod streams;
pub mod values;
mod wire_ends;
