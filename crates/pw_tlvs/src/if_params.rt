//! Interface parameters of a pseudowire.
ghost use Rattle.std.specs.Prelude.{◌≡◌};
ghost use Rattle.pw_tlvs.specs.Fec.{no_params};

use crate::found_params::no_text;
use net_values::Text;

/// The interface parameters of a PWid FEC element (RFC 8077 section 6.4, types of RFC 4446 section 3.3).
#[derive(Clone, Copy, Debug, PartialEq, Eq)]
pub struct IfParams {
    /// The interface MTU in octets, where it is told.
    pub mtu: Option<u16>,
    /// A description of the interface; empty where none is told.
    pub description: Text<80>,
    /// The requested VLAN ID, at most 4095, where it is told (RFC 4448 section 4.3).
    pub vlan: Option<u16>,
    /// The VCCV control channel types and connectivity verification types as bits (RFC 5085 section 5.3.1),
    /// where they are told.
    pub vccv: Option<(u8, u8)>,
}

impl IfParams {
    /// No parameter is told.
    pub fn none() -> IfParams
        ensures { result ≡ no_params }
    {
        IfParams {
            mtu: None,
            description: no_text(),
            vlan: None,
            vccv: None,
        }
    }
}
