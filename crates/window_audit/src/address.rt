//! Addresses in frames.
ghost use Rattle.std.specs.Prelude.{◌≡◌, ◌≤◌, ◌+◌, length, drop, take};

use net_values::Mac;

/// The address in the six octets from a place on.
pub(crate) fn address_at(octets: &[u8], at: usize) -> Mac
    requires { at + 6 ≤ length octets.now }
    ensures { result.0 ≡ take 6 (drop at octets.now) }
{
    Mac([
        octets[at],
        octets[at + 1],
        octets[at + 2],
        octets[at + 3],
        octets[at + 4],
        octets[at + 5],
    ])
}
