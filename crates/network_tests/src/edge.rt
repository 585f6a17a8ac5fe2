//! An edge that takes inputs over links in memory.

mod bridges;
mod dialogue;
mod edge_ends;
mod pings;
mod proposals;
mod pseudowires;
mod sessions;
mod side;
mod steps;
mod stitches;
mod stops;
mod strangers;
mod switched_pings;
mod switching_faults;
mod withdraws;
