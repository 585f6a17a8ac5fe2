//! Ethernet frames at attachment circuits and in packets: the inner frame of what enters at a circuit, the frame as it leaves at
//! one (RFC 4762 section 7.1), and the frame as a pseudowire carries it (RFC 4448 section 4).
//!
//! `specs/Frame.antt` of `net_base` says what an inner frame is, and `specs/Packet.antt` what a packet.
#![tactic(auto)]

mod entering;
mod frame_fault;
mod laws;
mod leaving;
mod octets;
mod packing;
mod stack_entry;
mod tag;
mod unpacking;

pub use entering::{inner, inner_at, inner_parts};
pub use frame_fault::FrameFault;
pub use laws::packed_is_unpacked;
pub use leaving::dress;
pub use packing::pack;
pub use stack_entry::StackEntry;
pub use unpacking::{read_entry, unpack, unpacked_parts};
