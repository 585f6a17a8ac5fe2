//! Writing what is told.
ghost use Rattle.std.specs.{Prelude.{◌≡◌, ◌≤◌, ◌+◌, ◌++◌, length, take, drop, Option, option_map}, List.{flat_map}};
ghost use Rattle.byteorder.specs.Endian.{big_bytes};
ghost use Rattle.pw_tlvs.specs.{declared.registry.Registry.TheVariants.{InterfaceParameter, SwitchingPointPart}, SubTlvs.{spell}};
ghost use Rattle.pw_tlvs.specs.Written.{told, description_value, pair_octets};

use crate::octets::put_sub_tlv;
use crate::registry::Registry;
use byteorder::{BigEndian, ByteOrder};
use net_values::{Addr, Text};

/// The two octets of a number.
pub fn two(number: u16) -> [u8; 2]
    ensures { result ≡ big_bytes 2 number }
{
    let mut octets = [0u8; 2];
    BigEndian::write_u16(&mut octets, number);
    octets
}

/// The four octets of a number.
pub fn four(number: u32) -> [u8; 4]
    ensures { result ≡ big_bytes 4 number }
{
    let mut octets = [0u8; 4];
    BigEndian::write_u32(&mut octets, number);
    octets
}

/// Writes the parameter of a number that is told.
pub fn put_pair(out: &mut [u8], at: usize, kind: u8, number: Option<u16>) -> usize
    requires room { at + length (flat_map (spell InterfaceParameter) (told kind (option_map (λ n. big_bytes 2 n) number))) ≤ length out.old }
    ensures end { result ≡ at + length (flat_map (spell InterfaceParameter) (told kind (option_map (λ n. big_bytes 2 n) number))) }
    ensures octets { out.new ≡ (take at out.old ++ flat_map (spell InterfaceParameter) (told kind (option_map (λ n. big_bytes 2 n) number))) ++ drop result out.old }
{
    match number {
        Some(number) => put_sub_tlv(Registry::InterfaceParameter, out, at, kind, &two(number)),
        None => at,
    }
}

/// Writes the parameter of what VCCV can do, where it is told.
pub fn put_vccv(out: &mut [u8], at: usize, kind: u8, types: Option<(u8, u8)>) -> usize
    requires room { at + length (flat_map (spell InterfaceParameter) (told kind (option_map pair_octets types))) ≤ length out.old }
    ensures end { result ≡ at + length (flat_map (spell InterfaceParameter) (told kind (option_map pair_octets types))) }
    ensures octets { out.new ≡ (take at out.old ++ flat_map (spell InterfaceParameter) (told kind (option_map pair_octets types))) ++ drop result out.old }
{
    match types {
        Some((channels, checks)) => {
            put_sub_tlv(
                Registry::InterfaceParameter,
                out,
                at,
                kind,
                &[channels, checks],
            )
        }
        None => at,
    }
}

/// Writes the parameter of a description that is not empty.
pub fn put_description(out: &mut [u8], at: usize, kind: u8, text: &Text<80>) -> usize
    requires room { at + length (flat_map (spell InterfaceParameter) (told kind (description_value text.now))) ≤ length out.old }
    ensures end { result ≡ at + length (flat_map (spell InterfaceParameter) (told kind (description_value text.now))) }
    ensures octets { out.new ≡ (take at out.old ++ flat_map (spell InterfaceParameter) (told kind (description_value text.now))) ++ drop result out.old }
{
    if text.len() == 0 {
        return at;
    }
    put_sub_tlv(Registry::InterfaceParameter, out, at, kind, text.as_slice())
}

/// Writes the part of a number that is told.
pub fn put_number(out: &mut [u8], at: usize, kind: u8, number: Option<u32>) -> usize
    requires room { at + length (flat_map (spell SwitchingPointPart) (told kind (option_map (λ n. big_bytes 4 n) number))) ≤ length out.old }
    ensures end { result ≡ at + length (flat_map (spell SwitchingPointPart) (told kind (option_map (λ n. big_bytes 4 n) number))) }
    ensures octets { out.new ≡ (take at out.old ++ flat_map (spell SwitchingPointPart) (told kind (option_map (λ n. big_bytes 4 n) number))) ++ drop result out.old }
{
    match number {
        Some(number) => put_sub_tlv(Registry::SwitchingPointPart, out, at, kind, &four(number)),
        None => at,
    }
}

/// Writes the part of an address that is told.
pub fn put_address(out: &mut [u8], at: usize, kind: u8, address: Option<Addr>) -> usize
    requires room { at + length (flat_map (spell SwitchingPointPart) (told kind (option_map (λ a. a.0) address))) ≤ length out.old }
    ensures end { result ≡ at + length (flat_map (spell SwitchingPointPart) (told kind (option_map (λ a. a.0) address))) }
    ensures octets { out.new ≡ (take at out.old ++ flat_map (spell SwitchingPointPart) (told kind (option_map (λ a. a.0) address))) ++ drop result out.old }
{
    match address {
        Some(address) => put_sub_tlv(Registry::SwitchingPointPart, out, at, kind, &address.0),
        None => at,
    }
}
