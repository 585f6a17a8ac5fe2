//! Parameters of a session.

use crate::LdpId;

/// What a Common Session Parameters TLV proposes (RFC 5036 section 3.5.3).
#[derive(Clone, Copy, Debug, PartialEq, Eq)]
pub struct SessionParams {
    /// The protocol version.
    pub version: u16,
    /// The KeepAlive Time in seconds.
    pub keepalive: u16,
    /// The A bit: downstream on demand.
    pub demand: bool,
    /// The D bit: loop detection.
    pub loops: bool,
    /// The path vector limit.
    pub limit: u8,
    /// The Max PDU Length as it was sent.
    pub max_pdu: u16,
    /// The receiver's LDP Identifier.
    pub receiver: LdpId,
}
