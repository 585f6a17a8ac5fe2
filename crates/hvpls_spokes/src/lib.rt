//! The ports of a service at an edge, what the edge is to the service, and the flood set: where a frame goes that no table knows
//! (RFC 4762 sections 4.1, 4.4 and 10.1).
#![tactic(auto)]

mod edge_role;
mod flood;
mod laws;
mod port;
mod port_kind;
mod port_name;
mod port_set;
mod ports;
mod roles;
mod terminal;

pub use edge_role::Role;
pub use flood::{flood_set, is_in_flood_set};
pub use laws::spoke_edges_have_no_mesh_port;
pub use port::Port;
pub use port_kind::PortKind;
pub use port_name::PortName;
pub use port_set::PortSet;
pub use ports::Ports;
pub use roles::role;
pub use terminal::{is_last, is_mesh_between, is_terminal, starts_spoke};
