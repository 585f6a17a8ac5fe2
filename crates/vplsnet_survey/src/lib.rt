//! `vplsnet-survey`: which failures of a network, alone and together, part which sites.
#![tactic(auto)]

mod base;
mod ending;
mod no_sink;
mod put;
mod request;
pub mod survey;

pub use ending::{Ending, ending_line};
