//! One provider edge at work (RFC 4762 section 4): it takes one input after another, and gives out what `edge_model` says.
#![tactic(auto)]

mod echo;
mod edge;
mod edge_stop;
mod egress;
mod end_marks;
mod ingress;
mod pings;
mod quiet;
mod sessions;
mod spokes;

pub use edge::Edge;
pub use edge_stop::EdgeStop;
