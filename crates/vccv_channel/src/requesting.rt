//! The packet of an echo request.
ghost use Rattle.std.specs.Prelude.{◌≡◌, ◌≤◌, ◌++◌, length, drop};
ghost use Rattle.byteorder.specs.Endian.{big_bytes};
ghost use Rattle.vccv_channel.specs.{Channel.{channel_packet}, Echo.{request_packet}};

use crate::channel::put_channel;
use crate::checksum::put_summed;
use crate::octets::joined;
use crate::{Cc, Ping};
use byteorder::{BigEndian, ByteOrder};
use net_base::Label;

// Version 4 with a header of five words, total length 28, identification 0, no fragment, TTL 255, ICMP (RFC 791
// section 3.1).
const HEADER_FRONT: [u8; 10] = [0x45, 0, 0, 28, 0, 0, 0, 0, 255, 1];

// The type and code of an echo request (RFC 792).
const ECHO_REQUEST: [u8; 2] = [8, 0];

// The identifier and the sequence number of an echo message.
fn numbers_of(ping: Ping) -> [u8; 4]
    ensures { result ≡ big_bytes 2 ping.number ++ big_bytes 2 ping.sequence }
{
    let mut octets = [0u8; 4];
    BigEndian::write_u16(&mut octets, ping.number);
    BigEndian::write_u16(&mut octets[2..], ping.sequence);
    octets
}

/// Writes the packet of an echo request to the front of `out`, and answers its length in octets, 32 or 36. It is an
/// IPv4 packet with an ICMP message in the control channel of the type `cc` (RFC 5085 section 5.1), without octets
/// behind its sequence number. `label` is the one that the far edge has told, and `points` the number of switching
/// points that its mapping names, at most 3. `out` has at least 64 octets.
pub fn request(cc: Cc, label: Label, points: u8, ping: Ping, out: &mut [u8]) -> usize
    requires points { points ≤ 3 }
    requires room { 64 ≤ length out.old }
    ensures count { result ≡ length (channel_packet cc label points (request_packet ping)) }
    ensures octets { out.new ≡ channel_packet cc label points (request_packet ping) ++ drop result out.old }
{
    let begin = put_channel(cc, label, points, out);
    let addresses = joined(ping.from.0, ping.to.0);
    let middle = put_summed(out, begin, &HEADER_FRONT, &addresses);
    put_summed(out, middle, &ECHO_REQUEST, &numbers_of(ping))
}
