//! What stands in front of a stream.
ghost use Rattle.std.specs.Prelude.{IfOk, IfSome};
ghost use Rattle.ldp_codec.specs.Views.{IsPduOf};
ghost use Rattle.peer_dialogue.specs.Hearing.{StandsIn, alive};

use crate::next::Next;
use ldp_codec::PduView;
use ldp_grammar::LdpId;
use ldp_stream::{Stream, StreamFault};
use net_base::NoMemory;
use std::alloc::Global;

// The sender and the Message ID of a PDU that is one KeepAlive with nothing behind its Message ID (RFC 5036 section 3.5.4).
#[tactic(auto, using(crate::proofs::FrontLemmas::seen_alive))]
fn alone(pdu: &PduView<'_>) -> Option<(LdpId, u32)>
    ensures { IfSome result (λ r. IsPduOf pdu.now (alive r.0 r.1)) }
{
    if pdu.len() != 1 {
        return None;
    }
    let message = pdu.message(0)?;
    if !message.is_keep_alive() {
        return None;
    }
    Some((pdu.id(), message.number()))
}

/// What stands in front of the octets of a stream, which does not change. The PDU of one KeepAlive takes no memory.
#[tactic(auto, using(crate::proofs::FrontLemmas::stands_seen, crate::proofs::FrontLemmas::stands_refused))]
pub fn front_in(alloc: Global, stream: &Stream) -> Result<Next, NoMemory>
    ensures { IfOk result (StandsIn stream.now) }
{
    match stream.peek() {
        Ok(None) => Ok(Next::More),
        Ok(Some(pdu)) => match alone(&pdu) {
            Some((sender, id)) => Ok(Next::KeepAlive { sender, id }),
            None => Ok(Next::Pdu(pdu.read(alloc)?)),
        },
        Err(StreamFault::Refused { fault, .. }) => Ok(Next::Fault(fault)),
        Err(StreamFault::NoMemory) => Err(NoMemory),
    }
}
