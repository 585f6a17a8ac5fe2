//! The forwarding equivalence class of a pseudowire.
ghost use Rattle.std.specs.Prelude.{◌≡◌};
ghost use Rattle.pw_tlvs.specs.Written.{tells_nothing, writable_fec};

use crate::IfParams;

// A PW type has 15 bits.
const KIND_LIMIT: u16 = 0x8000;

// A VLAN ID has 12 bits.
const VLAN_LIMIT: u16 = 4096;

/// A PWid FEC element (RFC 8077 section 6.1).
#[derive(Clone, Copy, Debug, PartialEq, Eq)]
pub struct PwFec {
    /// The C bit: the control word is there.
    pub c: bool,
    /// The PW type, 15 bits: 4 is Ethernet tagged, 5 is Ethernet raw (RFC 4446 section 3.2).
    pub kind: u16,
    /// The Group ID.
    pub group: u32,
    /// The PW ID; `None` names all pseudowires of the group. Without it there are no parameters.
    pub pw_id: Option<u32>,
    /// The interface parameters.
    pub params: IfParams,
}

/// Whether a FEC can be written (RFC 8077 section 6.1): its PW type has 15 bits, its VLAN ID, where it is told, 12, and
/// without a PW ID it has no parameters.
pub fn is_writable_fec(fec: &PwFec) -> bool
    ensures { result ≡ writable_fec fec.now }
{
    let params = match fec.pw_id {
        Some(_) => true,
        None => tells_none(&fec.params),
    };
    let vlan = match fec.params.vlan {
        Some(vlan) => vlan < VLAN_LIMIT,
        None => true,
    };
    fec.kind < KIND_LIMIT && (vlan && params)
}

// Whether no interface parameter is told.
fn tells_none(params: &IfParams) -> bool
    ensures { result ≡ tells_nothing params.now }
{
    let begin = params.mtu.is_none() && params.description.len() == 0;
    begin && (params.vlan.is_none() && params.vccv.is_none())
}
