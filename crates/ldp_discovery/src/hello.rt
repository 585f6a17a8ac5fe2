//! Hellos, written and heard.
ghost use Rattle.std.specs.{Prelude.{◌≡◌, ◌≤◌, ◌++◌, length, drop, IfOk}, Str.{bytes_eq}};
ghost use Rattle.ldp_discovery.specs.Hellos.{Says, hello_octets, hold_in, hold_in_message, are_same_address, is_no_memory, is_sender, tells_address};

use crate::heard::HelloFault;
use ldp_codec::{DecodeFault, decode_pdu, encode_into};
use ldp_grammar::{LdpId, Message, Pdu};
use net_values::{Addr, NoMemory};
use std::alloc::Global;

/// The octets of a Hello with a transport address.
pub const HELLO_SIZE: usize = 34;

/// Writes the Hello of an edge, 34 octets: a targeted one that asks for one in answer, with the edge's transport address (RFC 5036
/// section 3.5.2).
#[tactic(auto, using(crate::proofs::HelloLemmas::hello_length))]
pub fn put_hello(address: Addr, id: u32, hold: u16, out: &mut [u8]) -> usize
    requires { 34 ≤ length out.old }
    ensures count { result ≡ 34 }
    ensures octets { out.new ≡ hello_octets address id hold ++ drop 34 out.old }
{
    let hello = Message::Hello {
        id,
        hold,
        targeted: true,
        request: true,
        transport: Some(address),
    };
    let own = LdpId {
        router: address,
        space: 0,
    };
    encode_into(&hello, own, out)
}

// Whether two addresses are the same.
fn is_same_address(a: Addr, b: Addr) -> bool
    ensures { result ≡ are_same_address a b }
{
    are_same_octets(&a.0, &b.0)
}

fn are_same_octets(a: &[u8], b: &[u8]) -> bool
    ensures { result ≡ bytes_eq a.now b.now }
{
    a == b
}

// Whether a Hello tells this transport address, or none.
fn tells(address: Addr, transport: Option<Addr>) -> bool
    ensures { result ≡ tells_address address transport }
{
    match transport {
        Some(told) => is_same_address(told, address),
        None => true,
    }
}

// Whether a Hello comes from the edge of this address.
fn is_from(address: Addr, id: LdpId, transport: Option<Addr>) -> bool
    ensures { result ≡ is_sender address id transport }
{
    is_same_address(id.router, address) && id.space == 0 && tells(address, transport)
}

// The hold time of a Hello of the edge of this address, or why the message is none.
fn hold_of_message(address: Addr, id: LdpId, message: &Message) -> Result<u16, HelloFault>
    ensures { result ≡ hold_in_message address id message.now }
{
    match message {
        Message::Hello {
            hold,
            targeted,
            transport,
            ..
        } => {
            if !*targeted {
                Err(HelloFault::NotTargeted)
            } else if is_from(address, id, *transport) {
                Ok(*hold)
            } else {
                Err(HelloFault::WrongSender)
            }
        }
        _ => Err(HelloFault::NotHello),
    }
}

// The same of a PDU.
fn hold_of_pdu(address: Addr, pdu: &Pdu) -> Result<u16, HelloFault>
    ensures { result ≡ hold_in address pdu.now }
{
    match pdu.messages.as_slice() {
        [message] => hold_of_message(address, pdu.id, message),
        _ => Err(HelloFault::NotPdu),
    }
}

// Whether memory was refused.
fn is_memory(fault: DecodeFault) -> bool
    ensures { result ≡ is_no_memory fault }
{
    match fault {
        DecodeFault::NoMemory => true,
        _ => false,
    }
}

/// The hold time of a Hello that the edge of this address says, or why the octets are none: the first that holds of `NotPdu`,
/// `NotHello`, `NotTargeted` and `WrongSender`.
#[tactic(auto, using(crate::proofs::HearLemmas::says_pdu))]
pub fn hold_heard(
    alloc: Global,
    address: Addr,
    bytes: &[u8],
) -> Result<Result<u16, HelloFault>, NoMemory>
    ensures { IfOk result (Says address bytes.now) }
{
    match decode_pdu(alloc, bytes, 4096) {
        Ok(pdu) => Ok(hold_of_pdu(address, &pdu)),
        Err(fault) => {
            if is_memory(fault) {
                Err(NoMemory)
            } else {
                Ok(Err(HelloFault::NotPdu))
            }
        }
    }
}
