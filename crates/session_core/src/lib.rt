//! LDP sessions as machines with no input or output in them (RFC 5036 sections 2.5.3, 2.5.4, 2.5.6, 3.5.1.1 and 3.5.3).
//!
//! Each state is a type, and a call that moves a session takes its state and gives the next one, with what is to be put to
//! the peer. `specs/Table.antt` has the table of all states; it is the same for both ends.
//!
//! `In` has the calls that all states have, once, and a `Session` is one of any state, with the same calls.
//!
//! A caller tells a session each PDU that came (`heard`) and then each of its messages (`on_message`), octets that are no PDU
//! (`refused`), each time that it put something (`spoke`), each tick (`tick`), and that the connection is gone (`closed`).
#![tactic(auto)]

mod ended;
mod endings;
mod held_replies;
mod in_state;
mod initialized;
mod laws;
mod notice;
mod open_rec;
mod open_sent;
mod operational;
mod parameters;
mod peers;
mod refusal;
mod replies;
mod reply;
mod session;
mod stage;
mod standing;

pub use ended::Ended;
pub use in_state::In;
pub use initialized::Initialized;
pub use laws::{
    ends_agree, entered_by_messages, never_silent, one_notice_at_most, reasons_by_cause,
    replies_are_put, within_proposals,
};
pub use open_rec::OpenRec;
pub use open_sent::OpenSent;
pub use operational::Operational;
pub use peers::Peers;
pub use replies::Replies;
pub use reply::Reply;
pub use session::Session;
pub use stage::{Case, Stage};
pub use standing::Standing;
