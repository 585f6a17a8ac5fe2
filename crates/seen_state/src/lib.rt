//! What the entries of a report have shown of a network so far: the ends of connections that stand, the octets on their way and held,
//! the wires that are up, the circuits that are on, and the packets under way.
//!
//! It is told entry by entry, and contracts see it as what a trace shows (`seen_network`). Nothing is run here.
#![tactic(auto)]

mod calm;
mod copies;
mod numbered;
mod peer_end;
mod seen_edge;
mod seen_edges;
mod seen_state;
mod sizes;
mod whole_pdu;

pub use copies::Copies;
pub use numbered::Numbered;
pub use seen_edges::SeenEdges;
pub use seen_state::SeenState;
pub use sizes::Sizes;
