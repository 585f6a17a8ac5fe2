//! What an echo packet says.
ghost use Rattle.std.specs.Prelude.{◌≡◌, ◌≤◌, ℕ, true, false, length, take, Ok};
ghost use Rattle.net_values.specs.declared.addr.Addr.{Addr as Address};
ghost use Rattle.vccv_channel.specs.declared.echo.Echo.TheVariants.{Request};
ghost use Rattle.vccv_channel.specs.declared.vccv_fault.VccvFault.TheVariants.{Version, Channel};
ghost use Rattle.vccv_channel.specs.Reading.{has_fault, is_whole_icmp as whole_icmp_in, is_ip_packet as ip_packet_in, has_sums as sums_in, is_echo as echo_message_in, echo_in as echo_of, behind_header, total_length, reading, IsRequest};

use crate::checksum::ones_sum;
use crate::octets::four_at;
use crate::{Echo, VccvFault};
use net_base::{Addr, pair};

// The channel type of IPv4 (RFC 4385 section 5).
const IPV4_CHANNEL: u16 = 0x0021;

// Version 4 and a header of five words (RFC 791 section 3.1).
const VERSION_AND_LENGTH: u8 = 0x45;

// The protocol ICMP (RFC 791 section 3.1).
const ICMP: u8 = 1;

// The types of an echo request and of its answer (RFC 792).
const ECHO_REQUEST: u8 = 8;

const ECHO_REPLY: u8 = 0;

// The associated channel header is not whole, or of another version than 0.
fn has_wrong_version(payload: &[u8], channel: bool) -> bool
    ensures is { (number : ℕ) → result ≡ has_fault channel number payload.now Version }
    ensures long { result ≡ false → channel ≡ true → 4 ≤ length payload.now }
{
    channel && (payload.len() < 4 || payload[0] % 16 != 0)
}

// The associated channel header is of another channel type than IPv4.
fn has_wrong_channel(payload: &[u8], channel: bool) -> bool
    requires { channel ≡ true → 4 ≤ length payload.now }
    ensures { (number : ℕ) → result ≡ has_fault channel number payload.now Channel }
{
    channel && pair(payload, 2) != IPV4_CHANNEL
}

// What comes behind the associated channel header, where there is one.
fn behind(payload: &[u8], channel: bool) -> &[u8]
    requires { channel ≡ true → 4 ≤ length payload.now }
    ensures { result.now ≡ behind_header channel payload.now }
{
    if channel {
        payload.split_at(4).1
    } else {
        payload
    }
}

// The octets begin with an IPv4 header of five words that is no fragment's, and ICMP follows it.
fn is_whole_icmp(octets: &[u8]) -> bool
    requires { 28 ≤ length octets.now }
    ensures { result ≡ whole_icmp_in octets.now }
{
    // No more fragments come and the fragment offset is 0; the flag that forbids fragments may be set.
    octets[0] == VERSION_AND_LENGTH && pair(octets, 6) % 0x4000 == 0 && octets[9] == ICMP
}

// The octets begin with a whole IPv4 packet of ICMP.
fn is_ip_packet(octets: &[u8]) -> bool
    ensures is { result ≡ ip_packet_in octets.now }
    ensures long { result ≡ true → 28 ≤ total_length octets.now }
    ensures whole { result ≡ true → total_length octets.now ≤ length octets.now }
{
    if octets.len() < 28 {
        return false;
    }
    let total = pair(octets, 2) as usize;
    is_whole_icmp(octets) && 28 <= total && total <= 1500 && total <= octets.len()
}

// The sums of the header and of the message are all ones.
fn has_sums(packet: &[u8]) -> bool
    requires { 28 ≤ length packet.now }
    ensures { result ≡ sums_in packet.now }
{
    let (header, message) = packet.split_at(20);
    ones_sum(header) == 0xffff && ones_sum(message) == 0xffff
}

// The packet is an echo request or reply with this identifier.
fn is_echo(packet: &[u8], number: u16) -> bool
    requires { 28 ≤ length packet.now }
    ensures { result ≡ echo_message_in number packet.now }
{
    let kind = packet[20];
    (kind == ECHO_REQUEST || kind == ECHO_REPLY) && packet[21] == 0 && pair(packet, 24) == number
}

// What the packet says.
fn echo_in(packet: &[u8]) -> Echo
    requires { 28 ≤ length packet.now }
    ensures { result ≡ echo_of packet.now }
{
    if packet[20] == ECHO_REQUEST {
        Echo::Request {
            from: Addr(four_at(packet, 12)),
            to: Addr(four_at(packet, 16)),
            sequence: pair(packet, 26),
            length: pair(packet, 2),
        }
    } else {
        Echo::Answer {
            sequence: pair(packet, 26),
        }
    }
}

/// What the payload of a packet in a control channel says (RFC 5085 section 5, RFC 791 section 3.1, RFC 792). `channel`
/// says that an associated channel header comes first, and `number` is the identifier that belongs to the
/// pseudowire. What follows the IPv4 packet is not looked at.
///
/// The first of these that holds is answered: `Version` where the header is not whole or of another version than
/// 0; `Channel` where its type is not that of IPv4; `Ip` where no IPv4 packet of ICMP follows that has a header of
/// five words, is no fragment, has a total length of 28 to 1,500 octets and is all there; `Checksum` where the
/// ones' complement sum of the IPv4 header or of the ICMP message is not all ones; `Icmp` where the message is neither
/// an echo request nor a reply, of code 0 and with this identifier. `NotOffered` does not come.
pub fn read_echo(payload: &[u8], channel: bool, number: u16) -> Result<Echo, VccvFault>
    ensures reads { result ≡ reading channel number payload.now }
    ensures request { (from to : Address) (sequence length : ℕ) → result ≡ Ok (Request from to sequence length) → IsRequest (take length (behind_header channel payload.now)) }
{
    if has_wrong_version(payload, channel) {
        return Err(VccvFault::Version);
    }
    if has_wrong_channel(payload, channel) {
        return Err(VccvFault::Channel);
    }
    let rest = behind(payload, channel);
    if !is_ip_packet(rest) {
        return Err(VccvFault::Ip);
    }
    let (packet, _) = rest.split_at(pair(rest, 2) as usize);
    if !has_sums(packet) {
        return Err(VccvFault::Checksum);
    }
    if !is_echo(packet, number) {
        return Err(VccvFault::Icmp);
    }
    Ok(echo_in(packet))
}
