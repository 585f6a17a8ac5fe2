//! The labels that an edge hands out for its pseudowires, and whose they are (RFC 3032 section 2.1, RFC 5036 section 3.5.7).
//!
//! A label space is opened for one edge. It gives its numbers in rising order, over restarts too. A number that was freed is
//! kept, and may be given again once nothing can name it any more: after a new connection with the neighbour that it was given
//! for, and 64 ticks more. Only then, and where no other number is left, it is given again. A label space takes memory only
//! where it is opened. Its definitions stand in `specs/Labels.antt` and `specs/Kept.antt`.
#![tactic(auto)]

mod kept;
mod kept_labels;
mod label_space;
mod laws;
mod no_label;
mod owner;
mod search;
mod slots;

pub use kept::{Kept, KeptState};
pub use label_space::LabelSpace;
pub use laws::labels_are_used_again;
pub use no_label::NoLabel;
pub use owner::Owner;
