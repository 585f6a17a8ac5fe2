//! What an end tells its peer of a pseudowire.
ghost use Rattle.std.specs.Prelude.{◌≡◌};
ghost use Rattle.pw_signalling.specs.Rows.{with_status};

use net_base::Text;
use pw_tlvs::{Points, PwStatus};

/// What a Label Mapping tells of a pseudowire beside its PW ID and its label (RFC 8077 section 6).
#[derive(Clone, Copy, Debug, PartialEq, Eq)]
pub struct Told {
    /// The C bit: the control word is used (RFC 8077 section 7).
    pub c: bool,
    /// The PW type: 4 is Ethernet tagged, 5 is Ethernet raw (RFC 4446 section 3.2).
    pub kind: u16,
    /// The Group ID (RFC 8077 section 6.1).
    pub group: u32,
    /// The interface MTU in octets, where it is told (RFC 8077 section 6.4).
    pub mtu: Option<u16>,
    /// The requested VLAN ID, where it is told (RFC 4448 section 4.3).
    pub vlan: Option<u16>,
    /// The VCCV control channel types and connectivity verification types as bits, where they are told (RFC 5085 section
    /// 5.3.1).
    pub vccv: Option<(u8, u8)>,
    /// A description of the interface; empty where none is told.
    pub description: Text<80>,
    /// The status, where it is told (RFC 8077 section 6.3.2).
    pub status: Option<PwStatus>,
    /// The switching points that the pseudowire passed (RFC 6073 section 7.4).
    pub points: Points,
}

impl Told {
    // The same with this status.
    pub(crate) fn with_status(&self, status: PwStatus) -> Told
        ensures { result ≡ with_status status self.now }
    {
        Told {
            status: Some(status),
            ..*self
        }
    }
}
