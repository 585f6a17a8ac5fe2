//! The one pass that looks for faults among the messages of a PDU.
ghost use Rattle.std.specs.Prelude.{◌<◌, ◌≤◌, List, length, IfOk, IfErr};
ghost use Rattle.ldp_grammar.specs.{Spells.{Spelling}, FirstFault.{IsFirst, IsFirstMessageFault, NamesMessages}};
ghost use Rattle.ldp_codec.specs.{Part.{joined}, Views.{AreCounted, IsMessagePassed}};

use crate::Part;
use crate::message_head::split_message;
use crate::part::ROOM;
use crate::tlv_walk::walk_tlvs;
use ldp_grammar::{Fault, MESSAGE_HEADER, MessageKind, U_BIT};

// The size of the message in front, where it is without fault.
#[inline(always)]
fn pass_message(rest: &[u8]) -> Result<usize, Fault>
    requires some { 0 < length rest.now }
    requires few { length rest.now < 65536 }
    ensures passed { IfOk result (IsMessagePassed rest.now) }
    ensures fault { (before : List Spelling) → IfErr result (IsFirstMessageFault before rest.now) }
    ensures near { IfErr result (λ fault. fault.place < length rest.now) }
{
    let raw = split_message(rest)?;
    let size = MESSAGE_HEADER + raw.body.len();
    let Some(kind) = MessageKind::of(raw.word % U_BIT) else {
        return Ok(size);
    };
    match walk_tlvs(kind, raw.body) {
        Ok(_) => Ok(size),
        Err(fault) => Err(fault.behind(MESSAGE_HEADER as u16)),
    }
}

// How many messages the octets are, or their first fault.
#[tactic(auto, using(crate::proofs::ViewLemmas::counted_none))]
fn count_flat(body: &[u8]) -> Result<u16, Fault>
    requires few { length body.now < 65536 }
    ensures counted { IfOk result (AreCounted body.now) }
    ensures fault { IfErr result (IsFirst (NamesMessages body.now)) }
    ensures near { IfErr result (λ fault. fault.place < length body.now) }
{
    let mut count = 0;
    let mut at = 0;
    'passing: while at < body.len() {
        let (_, rest) = body.split_at(at);
        let size = match pass_message(rest) {
            Ok(size) => size,
            Err(fault) => return Err(fault.behind(at as u16)),
        };
        count += 1;
        at += size;
    }
    Ok(count)
}

// The same of octets in two pieces, which are joined first.
#[cold]
#[inline(never)]
fn count_joined(body: Part<'_>) -> Result<u16, Fault>
    requires few { length (joined body) ≤ 4100 }
    ensures counted { IfOk result (AreCounted (joined body.entry)) }
    ensures fault { IfErr result (IsFirst (NamesMessages (joined body.entry))) }
    ensures near { IfErr result (λ fault. fault.place < length (joined body.entry)) }
{
    let mut room = [0u8; ROOM];
    body.copy_to(&mut room);
    let (flat, _) = room.split_at(body.len());
    count_flat(flat)
}

/// How many messages the octets are, or their first fault. It takes no memory: messages that lie across the end of a
/// ring, at most 4,100 octets, are copied to the stack.
#[inline(always)]
pub fn count_messages(body: Part<'_>) -> Result<u16, Fault>
    requires few { length (joined body) ≤ 4100 }
    ensures counted { IfOk result (AreCounted (joined body.entry)) }
    ensures fault { IfErr result (IsFirst (NamesMessages (joined body.entry))) }
    ensures near { IfErr result (λ fault. fault.place < length (joined body.entry)) }
{
    match body.as_slice() {
        Some(flat) => count_flat(flat),
        None => count_joined(body),
    }
}
