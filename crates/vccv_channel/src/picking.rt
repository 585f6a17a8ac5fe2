//! Which control channel is used.
ghost use Rattle.std.specs.{Prelude.{◌≡◌, ◌==◌, ◌<◌, ◌&&◌}, Int.{bit_at}};
ghost use Rattle.vccv_channel.specs.Pick.{picked, shared, offers};

use crate::Cc;

// The bit of the connectivity verification type ICMP ping (RFC 5085 section 7).
const ICMP_PING: u32 = 0;

// The types have the bit of this place.
fn has_bit(types: u8, place: u32) -> bool
    requires { place < 8 }
    ensures { result ≡ (bit_at types place == 1) }
{
    types >> place & 1 == 1
}

// Both ends offer this type.
fn both_offer(own: u8, told: u8, cc: Cc) -> bool
    ensures { result ≡ (offers own cc && offers told cc) }
{
    let place = match cc {
        Cc::Header => 0,
        Cc::Alert => 1,
        Cc::Expiry => 2,
    };
    has_bit(own, place) && has_bit(told, place)
}

// The first type that both ends offer, of those that can be used.
fn shared_type(own: u8, told: u8, cword: bool, points: usize) -> Option<Cc>
    ensures { result ≡ shared cword points own told }
{
    if cword {
        return if both_offer(own, told, Cc::Header) {
            Some(Cc::Header)
        } else {
            None
        };
    }
    if points == 0 && both_offer(own, told, Cc::Alert) {
        return Some(Cc::Alert);
    }
    if both_offer(own, told, Cc::Expiry) {
        Some(Cc::Expiry)
    } else {
        None
    }
}

/// The control channel of a pseudowire (RFC 5085 section 5): type 1 on one with control word, and on one without
/// it type 2 where no switching point is between, else type 3. `local` has the control channel types that the own
/// end tells, as bits, and `remote` those that the other end tells, with its connectivity verification types
/// (RFC 5085 section 5.3.1); `points` is the number of switching points that its mapping names. `None` exactly where
/// not both ends tell ICMP ping, or not both the type that can be used.
pub fn pick(local: Option<u8>, remote: Option<(u8, u8)>, cword: bool, points: usize) -> Option<Cc>
    ensures { result ≡ picked local remote cword points }
{
    let own = local?;
    let (told, verifications) = remote?;
    if !has_bit(verifications, ICMP_PING) {
        return None;
    }
    shared_type(own, told, cword, points)
}
