//! What one provider edge forwards frames by: its bridged domains with the ports that forward, and how a frame comes and leaves
//! by a circuit and in a packet of a pseudowire (RFC 4762 section 4, RFC 4448 section 4).
#![tactic(auto)]

mod domain;
mod domain_change;
mod forwarding;
mod inner_frame;
mod octets;
mod packet;
mod tagged;

pub use forwarding::Forwarding;
pub use inner_frame::read_inner;
pub use octets::join;
pub use packet::{packet_of, read_payload, without_entry};
pub use tagged::dressed;
