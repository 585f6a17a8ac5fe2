//! The survey of a network as text: which failures, alone and together, part which sites.
//!
//! Each case of so many faults is worked out from the ground alone, and its lines are put as they come: no text stands in memory.
//! `specs/Relations.antt` has the pairs of sites that a case changes, `specs/Cases.antt` which cases there are and which are told, and
//! `specs/Text.antt` the lines.
#![tactic(auto)]

mod case_words;
mod cases;
mod change;
mod counting;
mod edges;
mod known;
mod off;
mod over;
mod put_case;
mod put_ground;
mod relation;
mod service;
mod sites;
mod stop;
mod survey;
mod tally;
mod told;
mod words;
mod work;
mod worked_case;

pub use cases::count_cases;
pub use over::Over;
pub use stop::SurveyStop;
pub use survey::Survey;
