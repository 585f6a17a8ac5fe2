//! Writing switching points.
ghost use Rattle.std.specs.{Prelude.{◌≡◌, ◌≤◌, ◌++◌, length, drop, option_map, ℕ}, List.{flat_map}};
ghost use Rattle.byteorder.specs.Endian.{big_bytes};
ghost use Rattle.pw_tlvs.specs.{declared.registry.Registry.TheVariants.{SwitchingPointPart}, SubTlvs.{spell}};
ghost use Rattle.pw_tlvs.specs.Written.{written_point, told};

use crate::Point;
use crate::told::{put_address, put_number};
use net_values::Addr;

// The octets of the part of a number, where it is told.
fn number_size(number: Option<u32>) -> usize
    ensures size { (kind : ℕ) → result ≡ length (flat_map (spell SwitchingPointPart) (told kind (option_map (λ n. big_bytes 4 n) number))) }
    ensures within { result ≤ 6 }
{
    match number {
        Some(_) => 6,
        None => 0,
    }
}

// The octets of the part of an address, where it is told.
fn address_size(address: Option<Addr>) -> usize
    ensures size { (kind : ℕ) → result ≡ length (flat_map (spell SwitchingPointPart) (told kind (option_map (λ a. a.0) address))) }
    ensures within { result ≤ 6 }
{
    match address {
        Some(address) => 2 + address.0.len(),
        None => 0,
    }
}

/// The number of octets that `write_point` writes, at most 18.
#[tactic(auto, using(crate::proofs::PointLemmas::point_length))]
pub fn point_size(point: &Point) -> usize
    ensures size { result ≡ length (written_point point.now) }
    ensures within { result ≤ 18 }
{
    number_size(point.pw_id) + address_size(point.local) + address_size(point.remote)
}

/// Writes the switching point to the front of `out`, which has room for it, and answers the number of octets:
/// the parts that are told by rising type, PW ID, local and remote address (RFC 6073 section 7.4.1).
#[tactic(auto, using(crate::proofs::PointLemmas::point_length))]
pub fn write_point(point: &Point, out: &mut [u8]) -> usize
    requires room { length (written_point point.now) ≤ length out.old }
    ensures count { result ≡ length (written_point point.now) }
    ensures octets { out.new ≡ written_point point.now ++ drop result out.old }
{
    let first = put_number(out, 0, 0x01, point.pw_id);
    let second = put_address(out, first, 0x03, point.local);
    put_address(out, second, 0x04, point.remote)
}
