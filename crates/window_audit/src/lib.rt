//! Whether each flooded frame that entered a calm service was seen exactly once, as a report alone shows it (RFC 4762 section 4).
//!
//! It is told entry by entry. Of the entries of an event those by which what is seen may change are kept until the next event, since only
//! then it is known whether the event applied. Its definitions are those of `seen_network`; nothing is run here.
#![tactic(auto)]

mod address;
mod calm_memory;
mod closed;
mod during;
mod exits;
mod leavings;
mod losses;
mod open_windows;
mod opened;
mod opening;
mod source;
mod sources;
mod spared;
mod taken;
mod verdict;
mod window_state;
mod windows;

pub use windows::Windows;
