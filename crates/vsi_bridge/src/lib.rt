//! The bridge of a service at an edge: where a customer's frame goes (RFC 4762 section 4).
#![tactic(auto)]

mod bridge;

pub use bridge::Bridge;
