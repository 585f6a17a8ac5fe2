//! A packet gets another label.
ghost use Rattle.std.specs.Prelude.{◌≡◌, ◌≤◌, length};
ghost use Rattle.pw_stitch.specs.Relabelling.{relabelled};

use byteorder::{BigEndian, ByteOrder};
use net_base::Label;

/// Writes this label and this TTL into the entry of the label stack in front of a packet (RFC 3032 section 2.1). Its traffic
/// class and its bottom bit stay, and so does all behind it. The packet has at least the four octets of an entry.
pub fn relabel(label: Label, ttl: u8, packet: &mut [u8])
    requires entry { 4 ≤ length packet.old }
    ensures octets { packet.new ≡ relabelled label ttl packet.old }
    ensures same_length { length packet.new ≡ length packet.old }
{
    let kept = BigEndian::read_u32(packet) / 256 % 16;
    BigEndian::write_u32(packet, label.number() * 4096 + (kept * 256 + ttl as u32));
}
