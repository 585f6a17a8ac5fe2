//! What an edge and one neighbour say to each other: what the edge works with, what it keeps of the neighbour (the session that
//! stands, and the octets that are held), and what it puts to it (RFC 5036 section 3.5, RFC 8077 section 6).
#![tactic(auto)]

mod advice;
mod at_work;
mod front;
mod held;
mod moved;
mod next;
mod peer_event;
mod peering;
mod pw_message;
mod speaker;
mod wish;

pub use advice::advice_of;
pub use at_work::AtWork;
pub use held::Held;
pub use next::Next;
pub use peer_event::PeerEvent;
pub use peering::Peering;
pub use pw_message::PwMessage;
pub use wish::terminal_wish;
