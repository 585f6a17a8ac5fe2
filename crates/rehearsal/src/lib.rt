//! The rehearsal: a scenario that is made from a number. It has a network of sixteen edges, sets it up, and lets 2,000 frames enter,
//! whose circuits and destinations are drawn.
//!
//! `specs/Rows.antt` has the network, `specs/Draws.antt` the draws and `specs/Commands.antt` what happens.
#![tactic(auto)]

mod commands;
mod draws;
mod numbered;
mod plan;
mod rehearsed_wire;
mod scenario;
mod wires;

pub use scenario::rehearsal;
