//! What stands in front of octets.

use ldp_codec::DecodeFault;
use ldp_grammar::{LdpId, Pdu};

/// What stands in front of the octets that are held of a neighbour.
#[derive(Drop)]
pub enum Next {
    /// More octets are wanted.
    More,
    /// A PDU of one KeepAlive, of which no value was made: its sender, and the Message ID.
    KeepAlive { sender: LdpId, id: u32 },
    /// Another PDU.
    Pdu(Pdu),
    /// A fault.
    Fault(DecodeFault),
}
