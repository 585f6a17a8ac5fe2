//! Echo packets, each in a buffer of its own.
ghost use Rattle.std.specs.Prelude.{◌≡◌, ◌≤◌, length, take, IfOk};
ghost use Rattle.edge_model.specs.Echo.{channel_octets};
ghost use Rattle.vccv_channel.specs.{Echo.{answer_packet, request_packet}, Reading.{IsRequest}};

use net_base::{List, NoMemory, Octets};
use pw_signalling::Binding;
use std::alloc::Global;
use vccv_channel::{Cc, Ping, answer, request};

// The octets that an answer is longer than its request at most, with those of the control channel (RFC 5085 section 5.1).
const MORE: usize = 12;

// The octets that a request takes to be written.
const REQUEST: usize = 64;

/// The packet of a ping in the control channel towards the far edge.
#[tactic(auto, using(crate::proofs::PingLemmas::front_taken))]
pub fn request_under(
    alloc: Global,
    cc: Cc,
    binding: &Binding,
    ping: Ping,
) -> Result<Octets, NoMemory>
    ensures { IfOk result (λ packet. packet ≡ channel_octets cc binding.now (request_packet ping)) }
{
    let mut out = [0u8; REQUEST];
    let points = binding.told.points.len() as u8;
    let count = request(cc, binding.label, points, ping, &mut out);
    front_of(alloc, &out, count)
}

/// The packet that answers a request in the control channel towards the far edge.
#[tactic(auto, using(crate::proofs::PingLemmas::front_taken))]
pub fn answer_under(alloc: Global, cc: Cc, binding: &Binding, ip: &[u8]) -> Result<Octets, NoMemory>
    requires { IsRequest ip.now }
    ensures { IfOk result (λ packet. packet ≡ channel_octets cc binding.now (answer_packet ip.now)) }
{
    let mut out = vec![in alloc; 0u8; ip.len() + MORE]?;
    let points = binding.told.points.len() as u8;
    let count = answer(cc, binding.label, points, ip, out.as_mut_slice());
    front_of(alloc, out.as_slice(), count)
}

// The first octets of a buffer.
fn front_of(alloc: Global, out: &[u8], count: usize) -> Result<Octets, NoMemory>
    requires { count ≤ length out.now }
    ensures { IfOk result (λ packet. packet ≡ take count out.now) }
{
    let (front, _) = out.split_at(count);
    let mut packet = List::with_capacity(alloc, count)?;
    packet.extend_from_slice(front)?;
    Ok(packet)
}
