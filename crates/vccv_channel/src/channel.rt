//! What stands before the IPv4 packet in a control channel.
ghost use Rattle.std.specs.Prelude.{◌≡◌, ◌≤◌, ◌+◌, ◌++◌, length, drop};
ghost use Rattle.vccv_channel.specs.{LabelStack.{stack_entry}, Channel.{label_stack, channel_header}};

use crate::Cc;
use crate::octets::joined;
use net_base::{Label, put};

// The label of Router Alert (RFC 3032 section 2.1).
const ROUTER_ALERT: u32 = 1;

// The TTL that an edge sends.
const TTL: u8 = 255;

// The associated channel header of IPv4 (RFC 4385 section 5).
const CHANNEL_HEADER: [u8; 4] = [0x10, 0, 0, 0x21];

// An entry of a label stack, with traffic class 0.
fn entry(label: u32, bottom: bool, ttl: u8) -> [u8; 4]
    requires { label ≤ 1048575 }
    ensures { result ≡ stack_entry label bottom ttl }
{
    let bottom_bit = if bottom { 256 } else { 0 };
    (label * 4096 + (bottom_bit + ttl as u32)).to_be_bytes()
}

/// Writes the label stack to the front, and behind it the associated channel header, where there is one; answers
/// the place behind them.
pub fn put_channel(cc: Cc, label: Label, points: u8, out: &mut [u8]) -> usize
    requires points { points ≤ 3 }
    requires room { 8 ≤ length out.old }
    ensures end { result ≡ length (label_stack cc label points ++ channel_header cc) }
    ensures within { result ≤ 8 }
    ensures octets { out.new ≡ (label_stack cc label points ++ channel_header cc) ++ drop result out.old }
{
    let number = label.number();
    match cc {
        Cc::Header => put(out, 0, &joined(entry(number, true, TTL), CHANNEL_HEADER)),
        Cc::Alert => {
            let alert = entry(ROUTER_ALERT, false, TTL);
            put(out, 0, &joined(alert, entry(number, true, TTL)))
        }
        Cc::Expiry => put(out, 0, &entry(number, true, points + 1)),
    }
}
