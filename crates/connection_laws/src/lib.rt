//! Which ends of connections stand: laws over the definitions of edges and of the network (RFC 5036 section 2.5).
#![tactic(auto)]

mod laws;

pub use laws::{deliveries_raise, ends_are_lost, ends_come_by_connections};
