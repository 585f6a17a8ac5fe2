//! Octets from their hexadecimal digits, and beside those that are expected.

use std::alloc::Global;
use std::process::Abort;

// The value of a hexadecimal digit; none for a blank or the end of a line.
fn nibble(digit: u8) -> Option<u8> {
    match digit {
        b'0'..=b'9' => Some(digit - b'0'),
        b'a'..=b'f' => Some(digit - b'a' + 10),
        _ => None,
    }
}

// Adds the octets of pairs of hexadecimal digits at the end.
fn push_digits(rt: &impl Abort, octets: &mut Vec<u8>, text: &str) {
    let mut high = None;
    for digit in text.as_bytes() {
        if let Some(value) = nibble(*digit) {
            match high {
                None => high = Some(value),
                Some(front) => {
                    octets.push((front << 4) | value).expect(rt, "memory");
                    high = None;
                }
            }
        }
    }
}

/// Adds the octets of pairs of hexadecimal digits at the end, and behind `*30`, which a text may end with, the addresses of 30 stations,
/// from 02:00:00:00:00:01 on; what else is no digit is passed over.
pub fn push_octets(rt: &impl Abort, octets: &mut Vec<u8>, text: &str) {
    match text.split_once('*') {
        Some((digits, count)) => {
            push_digits(rt, octets, digits);
            for number in 0..count.parse::<u8>().ok().expect(rt, "a number") {
                let station = [2, 0, 0, 0, 0, number + 1];
                octets.extend_from_slice(&station).expect(rt, "memory");
            }
        }
        None => push_digits(rt, octets, text),
    }
}

/// The octets of a text, as they are added by `push_octets`.
pub fn octets_of(rt: &impl Abort, alloc: Global, text: &str) -> Vec<u8> {
    let mut octets = Vec::new(alloc);
    push_octets(rt, &mut octets, text);
    octets
}

/// Whether these are the same octets. Tests compare them by this one call, since each comparison takes long to prove.
pub fn is_same(one: &[u8], other: &[u8]) -> bool {
    one == other
}
