//! Whether a service of a network is quiet, full and calm (RFC 4762 sections 4.4 and 10.2).
//!
//! One walk over the plan asks the network alone which connections are settled, and which wires carry frames.
#![tactic(auto)]

mod calm;
mod edge_pairs;
mod full;
mod planned_network;
mod quiet;
mod service_edges;

pub use calm::is_calm;
pub use full::is_full;
pub use planned_network::PlannedNetwork;
pub use quiet::is_quiet;
