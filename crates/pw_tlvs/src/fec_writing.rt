//! Writing the value of a FEC TLV.
ghost use Rattle.std.specs.{Prelude.{◌≡◌, ◌≤◌, ◌+◌, ◌++◌, ◌∷◌, ℕ, true, length, take, drop, Option, option_map}, List.{flat_map}};
ghost use Rattle.byteorder.specs.Endian.{big_bytes};
ghost use Rattle.pw_tlvs.specs.{declared.registry.Registry.TheVariants.{InterfaceParameter}, SubTlvs.{spell}};
ghost use Rattle.pw_tlvs.specs.Written.{writable_fec, written_fec, written_parameters, information, control_and_kind, told};

use crate::fec_reading::PWID;
use crate::told::{four, put_description, put_pair, put_vccv, two};
use crate::{IfParams, PwFec};
use net_values::put;

// The octets of the parameter of a number, where it is told.
fn pair_size(number: Option<u16>) -> usize
    ensures size { (kind : ℕ) → result ≡ length (flat_map (spell InterfaceParameter) (told kind (option_map (λ n. big_bytes 2 n) number))) }
    ensures within { result ≤ 4 }
{
    match number {
        Some(_) => 4,
        None => 0,
    }
}

// The octets of the parameters.
#[tactic(auto, using(crate::proofs::ParameterLemmas::parameters_length))]
fn parameters_size(params: &IfParams) -> usize
    ensures size { result ≡ length (written_parameters params.now) }
    ensures within { result ≤ 94 }
{
    let description = match params.description.len() {
        0 => 0,
        len => 2 + len,
    };
    let vccv = if params.vccv.is_some() { 4 } else { 0 };
    pair_size(params.mtu) + description + pair_size(params.vlan) + vccv
}

// The octets that the information length counts.
fn information_size(fec: &PwFec) -> usize
    ensures size { result ≡ length (information fec.now.pw_id fec.now.params) }
    ensures within { result ≤ 98 }
{
    match fec.pw_id {
        Some(_) => 4 + parameters_size(&fec.params),
        None => 0,
    }
}

/// The number of octets that `write_fec` writes, at most 106.
pub fn fec_size(fec: &PwFec) -> usize
    ensures size { result ≡ length (written_fec fec.now) }
    ensures within { result ≤ 106 }
{
    8 + information_size(fec)
}

// Writes the parameters that are told at the place, and answers the place behind them.
#[tactic(auto, using(crate::proofs::ParameterLemmas::parameters_length))]
fn put_parameters(out: &mut [u8], at: usize, params: &IfParams) -> usize
    requires room { at + length (written_parameters params.now) ≤ length out.old }
    ensures end { result ≡ at + length (written_parameters params.now) }
    ensures octets { out.new ≡ (take at out.old ++ written_parameters params.now) ++ drop result out.old }
{
    let first = put_pair(out, at, 0x01, params.mtu);
    let second = put_description(out, first, 0x03, &params.description);
    let third = put_pair(out, second, 0x06, params.vlan);
    put_vccv(out, third, 0x0c, params.vccv)
}

// The eight octets of an element before its information.
fn header_of(fec: &PwFec, count: u8) -> [u8; 8]
    requires { fec.now.kind ≤ 0x7FFF }
    ensures { result ≡ 0x80 ∷ (big_bytes 2 (control_and_kind fec.now.c fec.now.kind) ++ (count ∷ big_bytes 4 fec.now.group)) }
{
    let control = if fec.c { 0x8000 } else { 0 };
    let word = two(control + fec.kind);
    let group = four(fec.group);
    [
        PWID, word[0], word[1], count, group[0], group[1], group[2], group[3],
    ]
}

/// Writes the PWid FEC element to the front of `out`, which has room for it, and answers the number of octets
/// (RFC 8077 section 6.1). Where there is a PW ID, the parameters that are told follow it by rising type; an
/// empty description is not told. The PW type is at most 0x7FFF, a VLAN ID at most 4095, and an element without
/// a PW ID has no parameters, as `is_writable_fec` says.
#[tactic(auto, using(crate::proofs::WritableLemmas::fec_can, crate::proofs::WrittenLemmas::added_at))]
pub fn write_fec(fec: &PwFec, out: &mut [u8]) -> usize
    requires writable { writable_fec fec.now ≡ true }
    requires room { length (written_fec fec.now) ≤ length out.old }
    ensures count { result ≡ length (written_fec fec.now) }
    ensures octets { out.new ≡ written_fec fec.now ++ drop result out.old }
{
    let count = information_size(fec) as u8;
    let begin = put(out, 0, &header_of(fec, count));
    match fec.pw_id {
        Some(pw_id) => {
            let behind = put(out, begin, &four(pw_id));
            put_parameters(out, behind, &fec.params)
        }
        None => begin,
    }
}
