//! Targeted discovery: the Hello adjacencies of one edge, and of all edges of a plan (RFC 5036 sections 2.4.2, 2.5.5 and 3.5.2). Ticks
//! stand for seconds.
//!
//! `specs/Live.antt` says by what an edge said and heard when an adjacency lives; `Adjacencies` keeps counts that stand for that
//! history, as `laws` says, and `AdjacencyTable` those of all edges (`specs/Histories.antt`).
#![tactic(auto)]

mod adjacencies;
mod adjacency;
mod adjacency_table;
mod heard;
mod hello;
mod lapsed;
mod laws;
mod neighbour;

pub use adjacencies::Adjacencies;
pub use adjacency::{Adjacency, LastHello};
pub use adjacency_table::AdjacencyTable;
pub use heard::{Heard, HelloFault};
pub use hello::HELLO_SIZE;
pub use lapsed::Lapsed;
pub use laws::{deeds_are_kept, hellos_are_heard, stands_for_history};
pub use neighbour::Neighbour;
