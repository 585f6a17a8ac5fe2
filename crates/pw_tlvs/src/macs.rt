//! Lists of addresses.
ghost use Rattle.std.specs.Prelude.{◌≡◌, ◌≤◌, ◌*◌, ◌%◌, ◌+◌, ◌++◌, ◌↔◌, ◌⊎◌, length, take, drop, List, Ok, Err, IfOk};
ghost use Rattle.net_values.specs.declared.mac.Mac.{Mac};
ghost use Rattle.pw_tlvs.specs.declared.field_fault.FieldFault.{FieldFault};
ghost use Rattle.pw_tlvs.specs.{declared.macs_fault.MacsFault.TheVariants.{Field as FieldOf, NoMemory as OutOfMemory}, Faults.{IsFirstIn}};
ghost use Rattle.pw_tlvs.specs.Macs.{AreMacs, IsMacsFault, mac_octets};

use crate::{FieldFault, MacsFault};
use net_values::{List as Items, Mac, NoMemory, put};
use std::alloc::Global;

// The address at a place.
fn mac_at(value: &[u8], at: usize) -> Mac
    requires { at + 6 ≤ length value.now }
    ensures octets { result.0 ≡ take 6 (drop at value.now) }
    ensures whole { length result.0 ≡ 6 }
{
    let mut octets = [0u8; 6];
    octets.copy_from_slice(value.split_at(at).1.split_at(6).0);
    Mac(octets)
}

/// The addresses that the octets are (RFC 4762 section 6.2). The value has at most 65,535 octets. `Field(Size)`
/// comes exactly where their number is no multiple of six, and no other fault of a field comes.
pub fn read_macs(alloc: Global, value: &[u8]) -> Result<Items<Mac>, MacsFault>
    requires { length value.now ≤ 65535 }
    ensures value { IfOk result (AreMacs value.now) }
    ensures read { (list : List Mac) → AreMacs value.now list → (result ≡ Ok list) ⊎ (result ≡ Err OutOfMemory) }
    ensures fault { (fault : FieldFault) → (result ≡ Err (FieldOf fault)) ↔ IsFirstIn (IsMacsFault value.now) fault }
{
    if value.len() % 6 != 0 {
        return Err(MacsFault::Field(FieldFault::Size));
    }
    let mut list = Items::new(alloc);
    let mut at = 0;
    'reading: while at < value.len() {
        list.push(mac_at(value, at))?;
        at += 6;
    }
    Ok(list)
}

// The number of octets of the address: the prover knows that of one that is given, and not of one that a list lends.
fn mac_size(mac: Mac) -> usize
    ensures size { result ≡ length mac.0 }
    ensures six { result ≡ 6 }
{
    mac.0.len()
}

/// The number of octets that `write_macs` writes: six for each address.
pub fn macs_size(list: &Items<Mac>) -> usize
    ensures size { result ≡ length (mac_octets list.now) }
    ensures six { result ≡ 6 * length list.now }
{
    let mut size = 0;
    for mac in list.as_slice() {
        size += mac_size(*mac);
    }
    size
}

// Writes the six octets of the address at the place, and answers the place behind them. It is given for the same reason.
fn put_mac(out: &mut [u8], at: usize, mac: Mac) -> usize
    requires { at + 6 ≤ length out.old }
    ensures whole { length mac.0 ≡ 6 }
    ensures end { result ≡ at + 6 }
    ensures octets { out.new ≡ (take at out.old ++ mac.0) ++ drop result out.old }
{
    put(out, at, &mac.0)
}

/// Writes the octets of the addresses to the front of `out`, which has room for them, and answers their number
/// (RFC 4762 section 6.2). It is six times the number of addresses.
pub fn write_macs(list: &Items<Mac>, out: &mut [u8]) -> usize
    requires room { 6 * length list.now ≤ length out.old }
    ensures count { result ≡ 6 * length list.now }
    ensures length { result ≡ length (mac_octets list.now) }
    ensures octets { out.new ≡ mac_octets list.now ++ drop result out.old }
{
    let mut at = 0;
    for mac in list.as_slice() {
        at = put_mac(out, at, *mac);
    }
    at
}
