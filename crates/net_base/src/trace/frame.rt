//! What is read of the octets of a frame or of a packet.
ghost use Rattle.std.specs.Prelude.{◌≡◌, ◌≤◌, ◌+◌, length};
ghost use Rattle.net_base.specs.trace.Frame.{pair_at};

/// The number of the two octets at a place, in network byte order.
pub fn pair(octets: &[u8], at: usize) -> u16
    requires { at + 2 ≤ length octets.now }
    ensures { result ≡ pair_at octets.now at }
{
    octets[at] as u16 * 256 + octets[at + 1] as u16
}
