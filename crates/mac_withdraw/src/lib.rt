//! Where a MAC withdraw goes on from an edge, and in how many pieces its addresses are told (RFC 4762 section 6.2).
//!
//! The definitions stand in `specs/Passing.antt` and `specs/Pieces.antt`.
#![tactic(auto)]

mod in_pieces;
mod laws;
mod passing;

pub use in_pieces::pieces;
pub use laws::passes_by_horizon;
pub use passing::pass_to;
