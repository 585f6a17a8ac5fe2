//! Sub-TLVs in rows of octets.
ghost use Rattle.std.specs.Prelude.{◌≡◌, ◌≤◌, ◌+◌, ◌++◌, length, take, drop};
ghost use Rattle.pw_tlvs.specs.SubTlvs.{counted_in, spell};

use crate::registry::Registry;
use crate::sub_tlv::counted;
use net_values::put;

/// Writes a sub-TLV at the place, and answers the place behind it.
#[tactic(auto, using(crate::proofs::WrittenLemmas::added_at))]
pub fn put_sub_tlv(registry: Registry, out: &mut [u8], at: usize, kind: u8, value: &[u8]) -> usize
    requires fits { counted_in registry + length value.now ≤ 255 }
    requires room { at + (2 + length value.now) ≤ length out.old }
    ensures end { result ≡ at + (2 + length value.now) }
    ensures octets { out.new ≡ (take at out.old ++ spell registry (record { kind = kind; value = value.now })) ++ drop result out.old }
{
    let header = [kind, (counted(registry) + value.len()) as u8];
    let middle = put(out, at, &header);
    put(out, middle, value)
}
