//! The parameters of a session (RFC 5036 section 3.5.3).
ghost use Rattle.std.specs.Prelude.{◌≡◌, ◌≤◌};
ghost use Rattle.session_core.specs.Parameters.{is_platform, longest, proposal_refusal};

use crate::Peers;
use crate::refusal::Refusal;
use ldp_grammar::{LdpId, SessionParams};
use net_base::Addr;

/// The longest PDU as long as no Initialization was accepted, and at any time, in octets.
pub const LONGEST_PDU: u16 = 4096;

// A Max PDU Length up to this one stands for the longest PDU.
const DEFAULT_PDU: u16 = 255;

/// Whether the identifier is of the router and of the platform's label space (RFC 5036 section 2.2.2).
pub fn is_platform(router: Addr, id: LdpId) -> bool
    ensures { result ≡ is_platform router id }
{
    id.router == router && id.space == 0
}

/// Why the proposal is refused, the first of the three that holds; `None` where it is acceptable (RFC 5036 section 3.5.3).
pub fn refusal_of(peers: &Peers, params: &SessionParams) -> Option<Refusal>
    ensures { result ≡ proposal_refusal peers.now params.now }
{
    if params.version != 1 {
        return Some(Refusal::Version);
    }
    if !is_platform(peers.me, params.receiver) {
        return Some(Refusal::Receiver);
    }
    if params.keepalive == 0 {
        return Some(Refusal::KeepAliveTime);
    }
    None
}

/// The longest PDU that a Max PDU Length means: 255 or less stands for 4096, and no more than that is taken.
pub fn longest(max_pdu: u16) -> u16
    ensures value { result ≡ longest max_pdu }
    ensures least { 256 ≤ result }
    ensures most { result ≤ 4096 }
{
    if max_pdu <= DEFAULT_PDU {
        return LONGEST_PDU;
    }
    max_pdu.min(LONGEST_PDU)
}
