//! The two ends of a session.
ghost use Rattle.std.specs.Prelude.{◌≡◌};
ghost use Rattle.session_core.specs.{Parameters.{proposal}, State.{is_active}};

use byteorder::{BigEndian, ByteOrder};
use ldp_grammar::{LdpId, SessionParams};
use net_base::Addr;

/// The two ends of a session, and what this one proposes. A session asks that the two addresses differ, and that both
/// proposals are in range.
#[derive(Clone, Copy, Debug, PartialEq, Eq)]
pub struct Peers {
    /// The address of this end, its LSR identifier (RFC 5036 section 2.2.2).
    pub me: Addr,
    /// The address of the other end.
    pub peer: Addr,
    /// The KeepAlive Time that this end proposes, 3 to 65535 ticks (RFC 5036 section 3.5.3).
    pub keepalive: u16,
    /// The Max PDU Length that this end proposes, 256 to 4096 octets (RFC 5036 section 3.5.3).
    pub max_pdu: u16,
}

impl Peers {
    /// Whether this end is the active one: its address is the larger, as an unsigned number (RFC 5036 section 2.5.2).
    pub fn is_active(&self) -> bool
        ensures { result ≡ is_active self.now }
    {
        BigEndian::read_u32(&self.peer.0) < BigEndian::read_u32(&self.me.0)
    }

    /// What this end proposes in its Initialization (RFC 5036 section 3.5.3): version 1, its KeepAlive Time and Max PDU
    /// Length, labels unasked (A = 0), no loop detection (D = 0, PVLim 0), and the peer with label space 0 as the receiver.
    pub fn proposal(&self) -> SessionParams
        ensures { result ≡ proposal self.now }
    {
        SessionParams {
            version: 1,
            keepalive: self.keepalive,
            demand: false,
            loops: false,
            limit: 0,
            max_pdu: self.max_pdu,
            receiver: LdpId {
                router: self.peer,
                space: 0,
            },
        }
    }
}
