//! What leaves at a circuit.
ghost use Rattle.std.specs.Prelude.{◌≡◌, ◌≤◌, ◌+◌, ◌++◌, length, drop};
ghost use Rattle.net_base.specs.trace.Frame.{dress as dressed, tag_octets};

use crate::octets::join;
use crate::tag::TAG_PROTOCOL;
use byteorder::{BigEndian, ByteOrder};
use net_base::put;
use std::cmp::min;

// The octets of the addresses of a frame (IEEE 802.3 clause 3.2).
const ADDRESSES: usize = 12;

// The octets of a tag with priority and drop eligibility 0.
fn tag_bytes(tag: u16) -> [u8; 4]
    ensures { result ≡ tag_octets tag }
{
    let mut octets = [0u8; 4];
    BigEndian::write_u16(&mut octets, TAG_PROTOCOL);
    BigEndian::write_u16(&mut octets[2..], tag);
    octets
}

/// The inner frame as it leaves at a circuit, with the circuit's tag behind the addresses, where it has one;
/// the tag's priority and drop eligibility are 0 (RFC 4762 section 7.1, IEEE 802.1Q clause 9.6). The tag comes
/// behind the octets of a frame that has no more than its addresses, or fewer. Writes it to the front of `out`, which has four octets
/// more than the inner frame or still more, and answers its length in octets. `tag` is a VLAN ID; above 4095 its upper bits are the priority.
#[tactic(auto, using(std::proofs::lemmas::List::take_min, std::proofs::lemmas::List::drop_min))]
pub fn dress(tag: Option<u16>, inner: &[u8], out: &mut [u8]) -> usize
    requires room { length inner.now + 4 ≤ length out.old }
    ensures count { result ≡ length (dressed tag inner.now) }
    ensures octets { out.new ≡ dressed tag inner.now ++ drop result out.old }
{
    match tag {
        None => put(out, 0, inner),
        Some(tag) => {
            let (addresses, rest) = inner.split_at(min(ADDRESSES, inner.len()));
            let tagged = join(addresses, &tag_bytes(tag), out);
            put(out, tagged, rest)
        }
    }
}
