//! The Internet checksum (RFC 1071).
ghost use Rattle.std.specs.Prelude.{◌≡◌, ◌≤◌, ◌<◌, ◌+◌, ◌-◌, ◌%◌, ◌++◌, ◌∷◌, length, take, drop};
ghost use Rattle.byteorder.specs.Endian.{big_bytes};
ghost use Rattle.vccv_channel.specs.Checksum.{words, ones_plus, ones_sum as sum_of, summed};

use net_base::{pair, put};

// The sum of two words in ones' complement.
#[tactic(auto, unfolding(crate::specs::Checksum::ones_plus))]
fn add(a: u16, b: u16) -> u16
    ensures { result ≡ ones_plus a b }
{
    let sum = a as u32 + b as u32;
    (sum % 0x1_0000 + sum / 0x1_0000) as u16
}

// The word at a place; one last octet alone is its high half.
#[tactic(auto, using(crate::proofs::WordLemmas::word_pair, crate::proofs::WordLemmas::word_alone))]
fn word_at(octets: &[u8], at: usize) -> u16
    requires { at < length octets.now }
    ensures { words (drop at octets.now) ≡ result ∷ words (drop (at + 2) octets.now) }
{
    if octets.len() - at == 1 {
        octets[at] as u16 * 256
    } else {
        pair(octets, at)
    }
}

/// The ones' complement sum of the words of the octets (RFC 1071 section 1).
pub fn ones_sum(octets: &[u8]) -> u16
    ensures { result ≡ sum_of octets.now }
{
    let mut sum = 0;
    let mut at = octets.len() + octets.len() % 2;
    'words: while at > 0 {
        at -= 2;
        sum = add(word_at(octets, at), sum);
    }
    sum
}

// The checksum that stands between two parts, the first of them of an even number of octets.
fn checksum_between(front: &[u8], back: &[u8]) -> [u8; 2]
    requires { length front.now % 2 ≡ 0 }
    ensures { result ≡ big_bytes 2 (65535 - sum_of (front.now ++ (0 ∷ 0 ∷ back.now))) }
{
    (0xffff - add(ones_sum(front), ones_sum(back))).to_be_bytes()
}

/// Writes two parts with their checksum between them at the place, and answers the place behind them. The first
/// part has an even number of octets.
#[tactic(auto, using(crate::proofs::PacketLemmas::summed_length))]
pub fn put_summed(out: &mut [u8], at: usize, front: &[u8], back: &[u8]) -> usize
    requires even { length front.now % 2 ≡ 0 }
    requires room { at + (length front.now + (2 + length back.now)) ≤ length out.old }
    ensures end { result ≡ at + length (summed front.now back.now) }
    ensures size { result ≡ at + (length front.now + (2 + length back.now)) }
    ensures octets { out.new ≡ (take at out.old ++ summed front.now back.now) ++ drop result out.old }
{
    let first = put(out, at, front);
    let second = put(out, first, &checksum_between(front, back));
    put(out, second, back)
}
