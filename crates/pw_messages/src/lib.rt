//! What is told of a pseudowire, and the messages that carry it to a peer (RFC 8077 section 6): who sends them, how they are numbered,
//! and their octets. Also what a link makes of its calls, by which every edge at work is defined.
#![tactic(auto)]

mod content;
mod encoded;
mod messages;
mod sender;

pub use content::{bare_fec_of, binding_in, content_of, fec_of};
pub use encoded::pdu_octets;
pub use messages::{
    PW_STATUS_CODE, mac_withdrawal, mapping, release, status_notification, withdrawal,
};
pub use sender::following;
