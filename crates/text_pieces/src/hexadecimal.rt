//! Octets in hexadecimal.
ghost use Rattle.std.specs.Prelude.{◌≡◌, ◌<◌, ◌≤◌, ◌+◌, ◌++◌, ◌*◌, codes, drop, length, map, slice_index, take, OnOk};
ghost use Rattle.std.specs.Simd.Lanes.{Each1, chunk, put_chunk};
ghost use Rattle.hex.specs.Hex.{lower_digits};
ghost use Rattle.text_pieces.specs.Pieces.{hex};

use crate::pieces::put_text;
use net_values::NoMemory;
use std::simd::prelude::*;

/// The most octets that are turned at once: what one entry's frame mostly has.
const PIECE: usize = 64;

/// So many octets have sixteen digits, which are made side by side.
const EIGHT: usize = 8;

// The two digits of each octet from 0 to 255.
const PAIRS: &[u8; 512] = b"\
    000102030405060708090a0b0c0d0e0f\
    101112131415161718191a1b1c1d1e1f\
    202122232425262728292a2b2c2d2e2f\
    303132333435363738393a3b3c3d3e3f\
    404142434445464748494a4b4c4d4e4f\
    505152535455565758595a5b5c5d5e5f\
    606162636465666768696a6b6c6d6e6f\
    707172737475767778797a7b7c7d7e7f\
    808182838485868788898a8b8c8d8e8f\
    909192939495969798999a9b9c9d9e9f\
    a0a1a2a3a4a5a6a7a8a9aaabacadaeaf\
    b0b1b2b3b4b5b6b7b8b9babbbcbdbebf\
    c0c1c2c3c4c5c6c7c8c9cacbcccdcecf\
    d0d1d2d3d4d5d6d7d8d9dadbdcdddedf\
    e0e1e2e3e4e5e6e7e8e9eaebecedeeef\
    f0f1f2f3f4f5f6f7f8f9fafbfcfdfeff\
    ";

/// Adds two digits for each octet, the high one first, in lower case. The digits of a piece are made aside, so that the text grows once
/// for all of them.
pub fn put_digits(text: &mut Vec<u8>, octets: &[u8]) -> Result<(), NoMemory>
    ensures { OnOk result (text.new.items ≡ text.old.items ++ hex octets.now) }
{
    let mut at = 0;
    'adding: while at < octets.len() {
        let (_, rest) = octets.split_at(at);
        let (piece, _) = rest.split_at(rest.len().min(PIECE));
        let mut room = [0u8; 2 * PIECE];
        let (digits, _) = room.split_at_mut(2 * piece.len());
        write_digits(piece, digits);
        put_text(text, digits)?;
        at += piece.len();
    }
    Ok(())
}

/// Writes two digits for each octet, the high one first, in lower case, into room of just their size. It takes no memory. Of the
/// last seven octets at most the digits are looked up.
pub fn write_digits(octets: &[u8], digits: &mut [u8])
    requires { length digits.old ≡ 2 * length octets.now }
    ensures { digits.new ≡ hex octets.now }
{
    let begun = write_eights(octets, digits);
    'writing: for i in begun..octets.len() {
        let at = 2 * octets[i] as usize;
        digits[2 * i] = PAIRS[at];
        digits[2 * i + 1] = PAIRS[at + 1];
    }
}

// Writes the digits of eight octets after another, as long as there are so many, and answers of how many octets.
#[tactic(auto, using(crate::proofs::HexLemmas::hex_begun))]
fn write_eights(octets: &[u8], digits: &mut [u8]) -> usize
    requires { length digits.old ≡ 2 * length octets.now }
    ensures digits { take (2 * result) digits.new ++ hex (drop result octets.now) ≡ hex octets.now }
    ensures within { result ≤ length octets.now }
{
    let mut at = 0;
    'writing: while octets.len() - at >= EIGHT {
        put_sixteen(digits, 2 * at, sixteen(eight_at(octets, at)));
        at += EIGHT;
    }
    at
}

// Eight octets from a place on.
#[inline(always)]
fn eight_at(octets: &[u8], at: usize) -> u8x8
    requires { at + 8 ≤ length octets.now }
    ensures { result ≡ chunk at 8 octets.now }
{
    u8x8::from_slice(&octets[at..])
}

// Writes sixteen digits at a place.
#[inline(always)]
fn put_sixteen(digits: &mut [u8], at: usize, sixteen: u8x16)
    requires { at + 16 ≤ length digits.old }
    ensures { digits.new ≡ put_chunk at digits.old sixteen }
{
    sixteen.copy_to_slice(&mut digits[at..]);
}

// The digits of eight octets, made side by side.
#[inline(always)]
fn sixteen(eight: u8x8) -> u8x16
    ensures { result ≡ hex eight }
{
    let halves = halves(eight);
    halves
        .simd_lt(u8x16::splat(10))
        .select(halves + u8x16::splat(48), halves + u8x16::splat(87))
}

// The two halves of each of eight octets, the high one first.
#[inline(always)]
fn halves(eight: u8x8) -> u8x16
    ensures digits { map (slice_index lower_digits) result ≡ hex eight }
    ensures small { Each1 (λ half. half < 16) result }
    ensures size { length result ≡ 16 }
{
    let high = eight / u8x8::splat(16);
    let low = eight % u8x8::splat(16);
    high.shuffle(low, [0, 8, 1, 9, 2, 10, 3, 11, 4, 12, 5, 13, 6, 14, 7, 15])
}

/// Adds a blank and octets in hexadecimal.
pub fn put_hex_word(text: &mut Vec<u8>, octets: &[u8]) -> Result<(), NoMemory>
    ensures { OnOk result (text.new.items ≡ text.old.items ++ (codes " " ++ hex octets.now)) }
{
    put_text(text, b" ")?;
    put_digits(text, octets)?;
    Ok(())
}
