//! Pieces of text that are laid down in a room from its end to its front: so the digits of a number find their places at once, and a
//! text grows once for all pieces of a word. Each piece ends at a place of the room, and its call answers where it begins.
ghost use Rattle.std.specs.{Prelude.{◌≡◌, ◌<◌, ◌≤◌, ◌+◌, ◌*◌, ◌++◌, ◌∷◌, [], drop, length, map}, Fmt.{decimal}};
ghost use Rattle.message_text.specs.Words.{dotted, marked};

use itoa::write_digits;
use net_values::Addr;

/// The most octets that are laid down at once.
pub const ROOM: usize = 80;

/// Lays down an octet.
#[inline(always)]
#[tactic(auto, using(crate::proofs::LaidLemmas::octet_before))]
pub fn lay_octet(room: &mut [u8], end: usize, octet: u8) -> usize
    requires { (1 ≤ end) × (end ≤ length room.old) }
    ensures start { result + 1 ≡ end }
    ensures laid { drop result room.new ≡ octet ∷ drop end room.old }
{
    room[end - 1] = octet;
    end - 1
}

/// Lays down octets.
#[inline(always)]
#[tactic(auto, using(crate::proofs::LaidLemmas::laid_before))]
pub fn lay_text(room: &mut [u8], end: usize, octets: &[u8]) -> usize
    requires { (length octets.now ≤ end) × (end ≤ length room.old) }
    ensures start { result + length octets.now ≡ end }
    ensures laid { drop result room.new ≡ octets.now ++ drop end room.old }
{
    let begin = end - octets.len();
    room[begin..end].copy_from_slice(octets);
    begin
}

/// Lays down a number for whose digits there is room. Most have one digit.
#[inline(always)]
#[tactic(auto, using(std::proofs::lemmas::Fmt::decimal_digit))]
pub fn lay_digits(room: &mut [u8], end: usize, number: u64) -> usize
    requires { (length (decimal number) ≤ end) × (end ≤ length room.old) }
    ensures start { result + length (decimal number) ≡ end }
    ensures laid { drop result room.new ≡ decimal number ++ drop end room.old }
{
    if number < 10 {
        return lay_octet(room, end, b'0' + number as u8);
    }
    write_digits(number, room, end)
}

/// Lays down a number of at most ten digits.
#[inline(always)]
pub fn lay_number(room: &mut [u8], end: usize, number: u32) -> usize
    requires { (10 ≤ end) × (end ≤ length room.old) }
    ensures start { (result ≤ end) × (end ≤ result + 10) }
    ensures laid { drop result room.new ≡ decimal number ++ drop end room.old }
{
    lay_digits(room, end, u64::from(number))
}

/// Lays down a mark and a number of at most ten digits.
#[inline(always)]
pub fn lay_marked_number(room: &mut [u8], end: usize, mark: u8, number: u32) -> usize
    requires { (11 ≤ end) × (end ≤ length room.old) }
    ensures start { (result ≤ end) × (end ≤ result + 11) }
    ensures laid { drop result room.new ≡ (mark ∷ decimal number) ++ drop end room.old }
{
    let begin = lay_number(room, end, number);
    lay_octet(room, begin, mark)
}

/// Lays down numbers, a mark before each.
#[inline(always)]
pub fn lay_marked(room: &mut [u8], end: usize, mark: u8, numbers: &[u32]) -> usize
    requires { (11 * length numbers.now ≤ end) × (end ≤ length room.old) }
    ensures start { (result ≤ end) × (end ≤ result + 11 * length numbers.now) }
    ensures laid { drop result room.new ≡ marked (mark ∷ []) (map decimal numbers.now) ++ drop end room.old }
{
    let mut begin = end;
    let mut left = numbers.len();
    'laying: while left > 0 {
        left -= 1;
        begin = lay_marked_number(room, begin, mark, numbers[left]);
    }
    begin
}

/// Lays down an address as a dotted quad.
#[inline(always)]
#[tactic(auto, unfolding(crate::specs::Words::dotted))]
pub fn lay_address(room: &mut [u8], end: usize, address: Addr) -> usize
    requires { (43 ≤ end) × (end ≤ length room.old) }
    ensures start { (result ≤ end) × (end ≤ result + 43) }
    ensures laid { drop result room.new ≡ dotted address ++ drop end room.old }
{
    let [a, b, c, d] = address.0;
    let begin = lay_marked(room, end, b'.', &[u32::from(b), u32::from(c), u32::from(d)]);
    lay_number(room, begin, u32::from(a))
}
