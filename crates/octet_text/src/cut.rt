//! Texts that are cut at an octet.
ghost use Rattle.std.specs.Prelude.{◌≡◌, ◌<◌, ◌≤◌, ◌+◌, nat_lt, Some, None, drop, length, option_map, take, if◌then◌else◌, IfSome};
ghost use Rattle.memchr.specs.Find.{Nowhere, Passes, is_byte};
ghost use Rattle.octet_text.specs.Cut.{before_mark, behind_mark, lowest_bit};

use memchr::memchr;
use std::simd::prelude::*;

// The place of the lowest bit that is set, or 16 where none is.
#[inline(always)]
fn lowest_bit(bits: u64) -> usize
    ensures { result ≡ lowest_bit bits 16 }
{
    if bits == 0 {
        16
    } else {
        bits.trailing_zeros() as usize
    }
}

// How many of the first sixteen octets stand before the first such one, or sixteen where none of them is one.
#[inline(always)]
fn near_len(mark: u8, text: &[u8]) -> usize
    requires { 16 ≤ length text.now }
    ensures before { Nowhere (Passes (is_byte mark) text.now) 0 result }
    ensures is { result < 16 → Passes (is_byte mark) text.now result }
{
    let marks = u8x16::from_slice(text).simd_eq(u8x16::splat(mark));
    lowest_bit(marks.to_bitmask())
}

// How many octets stand before the first such one, or all where there is none. Words are short, so that it is mostly near.
#[inline(always)]
#[tactic(auto, using(crate::proofs::MarkLemmas::near_front, crate::proofs::MarkLemmas::near_back))]
fn front_len(mark: u8, text: &[u8]) -> usize
    ensures front { before_mark mark text.now ≡ take result text.now }
    ensures behind { behind_mark mark text.now ≡ (if nat_lt result (length text.now) then Some (drop (result + 1) text.now) else None) }
    ensures within { result ≤ length text.now }
{
    if text.len() >= 16 {
        let near = near_len(mark, text);
        if near < 16 {
            return near;
        }
    }
    far_len(mark, text)
}

// The same, wherever it is.
#[inline(never)]
fn far_len(mark: u8, text: &[u8]) -> usize
    ensures front { before_mark mark text.now ≡ take result text.now }
    ensures behind { behind_mark mark text.now ≡ (if nat_lt result (length text.now) then Some (drop (result + 1) text.now) else None) }
    ensures within { result ≤ length text.now }
{
    match memchr(mark, text) {
        Some(at) => at,
        None => text.len(),
    }
}

/// What stands before the first such octet, and what follows it; `None` where there is none.
#[inline(always)]
pub fn cut_at(mark: u8, text: &[u8]) -> (&[u8], Option<&[u8]>)
    ensures front { result.0.now ≡ before_mark mark text.now }
    ensures behind { option_map (λ r. r.now) result.1 ≡ behind_mark mark text.now }
    ensures less { IfSome result.1 (λ r. length result.0.now + length r.now + 1 ≡ length text.now) }
{
    let at = front_len(mark, text);
    if at < text.len() {
        let (front, _) = text.split_at(at);
        let (_, behind) = text.split_at(at + 1);
        (front, Some(behind))
    } else {
        (text, None)
    }
}
