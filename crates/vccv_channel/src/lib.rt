//! The control channel of a pseudowire, and the ping in it (VCCV, RFC 5085): which channel both ends can use,
//! the packet of an echo request, what an echo packet says, and the packet of the answer.
//!
//! It runs over each of the three control channel types. The packets stand in `specs/Channel.antt` and
//! `specs/Echo.antt`, the faults in `specs/Reading.antt`, and a checksum in `specs/Checksum.antt` as what a
//! receiver tests.
#![tactic(auto)]

mod answering;
mod cc;
mod channel;
mod checksum;
mod echo;
mod laws;
mod octets;
mod picking;
mod ping;
mod reading;
mod requesting;
mod vccv_fault;

pub use answering::answer;
pub use cc::Cc;
pub use echo::Echo;
pub use laws::{answers_exchange, written_is_read};
pub use picking::pick;
pub use ping::Ping;
pub use reading::read_echo;
pub use requesting::request;
pub use vccv_fault::VccvFault;
