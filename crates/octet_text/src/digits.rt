//! Octets as pairs of hexadecimal digits.
ghost use Rattle.std.specs.Prelude.{◌≡◌, ◌≤◌, ◌+◌, ◌*◌, ◌%◌, nat_lt, Some, None, length, map, if◌then◌else◌, IfOk};
ghost use Rattle.std.specs.Simd.Lanes.{chunk, put_chunk};
ghost use Rattle.octet_text.specs.Hex.{digit_in, digit_value, digits_in, lowered, pair_value, part, small_part, unhex, worth};

use net_values::{List, NoMemory, Octets};
use std::alloc::Global;
use std::simd::prelude::*;

/// The most octets that are read at once: what a frame mostly has.
const PIECE: usize = 256;

// Letters as small ones, where capital letters are digits.
#[inline(always)]
fn lowered(capitals: bool, digits: u8x16) -> u8x16
    ensures { result ≡ map (lowered capitals) digits }
{
    if capitals {
        return digits | u8x16::splat(0x20);
    }
    digits
}

// What each digit is worth; 255 where it is none.
#[inline(always)]
fn values(capitals: bool, digits: u8x16) -> u8x16
    ensures { result ≡ map (λ d. worth (digit_in capitals d)) digits }
{
    let decimal = digits - u8x16::splat(b'0');
    let letter = lowered(capitals, digits) - u8x16::splat(b'a');
    let letters = letter
        .simd_lt(u8x16::splat(6))
        .select(letter + u8x16::splat(10), u8x16::splat(255));
    decimal.simd_lt(u8x16::splat(10)).select(decimal, letters)
}

// The octets of sixteen digits, and whether all are digits.
#[inline(always)]
fn eight(capitals: bool, digits: u8x16) -> (u8x8, bool)
    ensures octets { unhex (digits_in capitals digits) ≡ (if result.1 then Some result.0 else None) }
    ensures size { length result.0 ≡ 8 }
{
    let values = values(capitals, digits);
    let high = values.swizzle([0, 2, 4, 6, 8, 10, 12, 14]);
    let low = values.swizzle([1, 3, 5, 7, 9, 11, 13, 15]);
    let strange = values.simd_ge(u8x16::splat(16));
    (high * u8x8::splat(16) + low, strange.to_bitmask() == 0)
}

// Sixteen digits from a place on.
#[inline(always)]
fn sixteen_at(digits: &[u8], at: usize) -> u8x16
    requires { at + 16 ≤ length digits.now }
    ensures { result ≡ chunk at 16 digits.now }
{
    u8x16::from_slice(&digits[at..])
}

// Writes eight octets at a place.
#[inline(always)]
fn put_eight(room: &mut [u8], at: usize, octets: u8x8)
    requires { at + 8 ≤ length room.old }
    ensures { room.new ≡ put_chunk at room.old octets }
{
    octets.copy_to_slice(&mut room[at..]);
}

// Writes the octets of pairs of digits into room of just their size, eight at a time, and answers whether all are digits.
#[inline(always)]
fn fill_eights(capitals: bool, digits: &[u8], room: &mut [u8]) -> bool
    requires size { length digits.now ≡ 2 * length room.old }
    requires eights { length room.old % 8 ≡ 0 }
    ensures octets { unhex (digits_in capitals digits.now) ≡ (if result then Some room.new else None) }
    ensures size { length room.new ≡ length room.old }
{
    let mut all = true;
    let mut at = 0;
    'filling: while at < room.len() {
        let (octets, are) = eight(capitals, sixteen_at(digits, 2 * at));
        put_eight(room, at, octets);
        all = all & are;
        at += 8;
    }
    all
}

// The value of a digit; 256 where it is none.
#[inline(always)]
fn any_value(digit: u8) -> u16
    ensures part { result ≡ part (digit_value digit) }
    ensures within { result ≤ 256 }
{
    match digit {
        48..=57 => (digit - 48) as u16,
        97..=102 => (digit - 87) as u16,
        65..=70 => (digit - 55) as u16,
        _ => 256,
    }
}

// The same where capital letters are no digits.
#[inline(always)]
fn small_value(digit: u8) -> u16
    ensures part { result ≡ small_part digit }
    ensures within { result ≤ 256 }
{
    match digit {
        48..=57 => (digit - 48) as u16,
        97..=102 => (digit - 87) as u16,
        _ => 256,
    }
}

// The same where capital letters are digits or none.
#[inline(always)]
#[tactic(auto, using(crate::proofs::DigitLemmas::any_part, crate::proofs::DigitLemmas::small_in))]
fn value(capitals: bool, digit: u8) -> u16
    ensures part { result ≡ part (digit_value (digit_in capitals digit)) }
    ensures within { result ≤ 256 }
{
    if capitals {
        any_value(digit)
    } else {
        small_value(digit)
    }
}

// The octet of two digits; 256 or more where one of them is none.
#[inline(always)]
#[tactic(auto, using(crate::proofs::HexLemmas::octet_of_two))]
fn pair(capitals: bool, high: u8, low: u8) -> u16
    ensures { pair_value (digit_in capitals high) (digit_in capitals low) ≡ (if nat_lt result 256 then Some (result % 256) else None) }
{
    (value(capitals, high) * 16) | value(capitals, low)
}

// Writes the octets of pairs of digits into room of just their size, one by one, and answers whether all are digits.
#[inline(always)]
fn fill_pairs(capitals: bool, digits: &[u8], room: &mut [u8]) -> bool
    requires { length digits.now ≡ 2 * length room.old }
    ensures { unhex (digits_in capitals digits.now) ≡ (if result then Some room.new else None) }
{
    let mut joined = 0;
    'filling: for i in 0..room.len() {
        let octet = pair(capitals, digits[2 * i], digits[2 * i + 1]);
        joined = joined | octet;
        room[i] = (octet % 256) as u8;
    }
    joined < 256
}

// Writes the octets of pairs of digits into room of just their size, and answers whether all are digits. It takes no memory.
#[inline(always)]
fn fill(capitals: bool, digits: &[u8], room: &mut [u8]) -> bool
    requires { length digits.now ≡ 2 * length room.old }
    ensures { unhex (digits_in capitals digits.now) ≡ (if result then Some room.new else None) }
{
    let eights = room.len() / 8 * 8;
    let (front, back) = digits.split_at(2 * eights);
    let (first, last) = room.split_at_mut(eights);
    fill_eights(capitals, front, first) && fill_pairs(capitals, back, last)
}

/// The octets of pairs of digits, in a list of this capacity or what they need; `None` exactly where these are no pairs of hexadecimal
/// digits. Capital letters are digits or none. They are read a piece at a time, each aside, so that the list grows once.
#[inline(always)]
pub fn octets_of(
    alloc: Global,
    capacity: usize,
    capitals: bool,
    digits: &[u8],
) -> Result<Option<Octets>, NoMemory>
    ensures { IfOk result (λ octets. octets ≡ unhex (digits_in capitals digits.now)) }
{
    let mut octets = List::with_capacity(alloc, capacity)?;
    let mut at = 0;
    'decoding: while digits.len() - at >= 2 {
        let (_, rest) = digits.split_at(at);
        let count = (rest.len() / 2).min(PIECE);
        let (piece, _) = rest.split_at(2 * count);
        let mut room = [0u8; PIECE];
        let (made, _) = room.split_at_mut(count);
        if !fill(capitals, piece, made) {
            return Ok(None);
        }
        octets.extend_from_slice(made)?;
        at += 2 * count;
    }
    if at < digits.len() {
        return Ok(None);
    }
    Ok(Some(octets))
}
