//! Switching points of pseudowires that pass more than two edges (RFC 6073): what one passes on from one side to the other, what
//! it accepts, and how it passes packets on.
//!
//! A `Stitch` has an end of each side. `specs/Passing.antt` says what is passed on, `specs/Accepting.antt` what is accepted,
//! and `specs/Swap.antt` with `specs/Relabelling.antt` how a packet goes on.
#![tactic(auto)]

mod accepting;
mod change;
mod laws;
mod passing;
mod relabelling;
mod side;
mod stitch;
mod swap_drop;
mod swapped;

pub use accepting::accepts;
pub use change::is_same_but_status;
pub use laws::{breaks_loops, carries_both_ways, changes_label_alone};
pub use passing::{passed_status, wanted};
pub use relabelling::relabel;
pub use side::Side;
pub use stitch::{Stitch, label_onward};
pub use swap_drop::SwapDrop;
pub use swapped::Swapped;
