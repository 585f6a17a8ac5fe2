//! What happens to a session.

use ldp_codec::DecodeFault;
use ldp_grammar::{LdpId, Message};

/// One thing that happens to a session of an edge (RFC 5036 sections 2.5.3 to 2.5.6).
#[derive(Clone, Copy)]
pub enum PeerEvent<'a> {
    /// The connection stands.
    Start,
    /// A PDU of the sender came.
    Heard(LdpId),
    /// A message of that PDU is processed.
    Received(&'a Message),
    /// The octets that came are no PDU.
    Refused(DecodeFault),
    /// A tick passed.
    Ticked,
}
