//! The packet of an echo reply.
ghost use Rattle.std.specs.Prelude.{◌≡◌, ◌≤◌, ◌+◌, ◌++◌, ◌∷◌, [], length, take, drop, slice_index};
ghost use Rattle.vccv_channel.specs.{Channel.{channel_packet}, Echo.{answer_packet}, Reading.{IsRequest}};

use crate::Cc;
use crate::channel::put_channel;
use crate::checksum::put_summed;
use crate::octets::{four_at, joined};
use net_base::{Label, put};

// The TTL of an answer.
const TTL: u8 = 255;

// The type of an echo reply (RFC 792).
const ECHO_REPLY: u8 = 0;

// The header before its checksum, with the TTL of an answer.
#[tactic(auto, using(crate::proofs::OctetLemmas::added_behind))]
fn header_front(ip: &[u8]) -> [u8; 10]
    requires { 28 ≤ length ip.now }
    ensures { result ≡ take 8 ip.now ++ 255 ∷ slice_index ip.now 9 ∷ [] }
{
    let mut front = [0u8; 10];
    let behind = put(&mut front, 0, ip.split_at(8).0);
    put(&mut front, behind, &[TTL, ip[9]]);
    front
}

/// Writes the packet that answers an echo request to the front of `out`, and answers its length in octets, at most
/// eight more than the request's. It is the request with its addresses exchanged, TTL 255 and ICMP type 0, and both
/// checksums made anew (RFC 792), in the control channel of the type `cc` (RFC 5085 section 5.1). `ip` is the IPv4
/// packet of a request that `read_echo` accepted, cut to its total length. `label` is the one that the far edge has
/// told, and `points` the number of switching points that its mapping names, at most 3. `out` has at least twelve
/// octets more than `ip`.
#[tactic(auto, using(crate::proofs::LawLemmas::request_long))]
pub fn answer(cc: Cc, label: Label, points: u8, ip: &[u8], out: &mut [u8]) -> usize
    requires points { points ≤ 3 }
    requires request { IsRequest ip.now }
    requires room { length ip.now + 12 ≤ length out.old }
    ensures count { result ≡ length (channel_packet cc label points (answer_packet ip.now)) }
    ensures octets { out.new ≡ channel_packet cc label points (answer_packet ip.now) ++ drop result out.old }
{
    let begin = put_channel(cc, label, points, out);
    let addresses = joined(four_at(ip, 16), four_at(ip, 12));
    let middle = put_summed(out, begin, &header_front(ip), &addresses);
    put_summed(out, middle, &[ECHO_REPLY, ip[21]], ip.split_at(24).1)
}
