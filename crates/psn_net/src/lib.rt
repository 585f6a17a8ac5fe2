//! The network of a run: edges, what is on its way between them, and the trace.
#![tactic(auto)]

mod by_number;
mod call;
mod call_log;
mod carried;
mod departure;
mod ledger;
mod net_stop;
mod network;
mod packets;
mod pair_index;
mod parts;
mod psn_link;
mod sending;
mod shared_plan;
mod trail;

pub use net_stop::NetStop;
pub use network::Network;
