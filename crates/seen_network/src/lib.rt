//! What the trace of a run shows of the network, and the windows of flooded frames that it shows, as a list that grows event by event
//! (RFC 4762 section 4).
//!
//! A window is open from the event by which a frame entered a calm service until no copy of it is under way; then, where the frame was
//! flooded, it has to have left once at each site. This crate runs nothing: its definitions stand in `specs/`, and its laws have empty
//! bodies.
#![tactic(auto)]

mod laws;
mod window;

pub use laws::{seen_on, windows_go_on, windows_tell};
pub use window::Window;
