//! Whom a flooded frame would reach once failures have befallen a network and all has settled, for each two edges at once: computed by the
//! plan and by the ground, which is what a network has at the moment, and not by a run.
//!
//! `specs/Ground.antt` says what the ground of a network is, and `survey_laws` what the answers promise of every run.
#![tactic(auto)]

mod edge_pairs;
mod fault_list;
mod ground;
mod loss;
mod met;
mod reach;
mod rivals;
mod shape;
mod word;

pub use edge_pairs::EdgePairs;
pub use fault_list::all_faults;
pub use ground::{FailedGround, Ground};
pub use reach::Reaching;
pub use shape::Shape;
pub use word::{has_bit, in_both, with_bit, without};
