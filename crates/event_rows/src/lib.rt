//! Events by rows: the shape of the line that tells each, the event that a row and its values make, and the row and the values of an event.
//! A frame is no row, since its octets are no number.
#![tactic(auto)]

mod rows;
mod words;

pub use rows::{event_apart, event_made, event_shape, event_shapes};
pub use words::words_of_event;
