//! Whole PDUs by their lengths.
ghost use Rattle.std.specs.Prelude.{◌≡◌};
ghost use Rattle.seen_state.specs.PeerEnd.{whole_pdu};

use net_base::pair;

/// How many octets the PDU in front of these has, where it is whole; 0 where it is not (RFC 5036 section 3.1).
pub(crate) fn whole_pdu(octets: &[u8]) -> usize
    ensures { result ≡ whole_pdu octets.now }
{
    if octets.len() < 4 {
        return 0;
    }
    let length = 4 + pair(octets, 2) as usize;
    if octets.len() < length { 0 } else { length }
}
