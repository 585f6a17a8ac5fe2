//! The steps by which the text of a stream is written.
ghost use Rattle.std.specs.Prelude.{◌≡◌, ◌==◌, ◌≤◌, ◌-◌, [], drop, length, min, take, if◌then◌else◌, IfErr, IfOk, OnOk};
ghost use Rattle.text_lines.specs.Written.{PutsOn, lines_written};
ghost use Rattle.vplsnet.specs.StreamSteps.{AddsPdu, Flushes, IsFrontStop, IsStreamGoing, PutsFront, PutsOne, outcome_at};

use crate::outcome::Outcome;
use ldp_stream::{Stream, StreamFault};
use message_text::put_views;
use net_base::{Failed, NoMemory, Sink};
use std::alloc::Global;
use text_lines::Page;

/// The most octets that are fed at once.
const PIECE: usize = 2048;

/// Adds the lines of the messages of the PDU in front, which is lent; `false` where none stands there whole. `fed` is how many
/// octets were fed.
#[tactic(auto, using(crate::proofs::StreamLemmas::puts_front))]
pub fn put_front(
    alloc: Global,
    stream: &Stream,
    fed: u64,
    text: &mut Vec<u8>,
) -> Result<bool, StreamFault>
    requires going { IsStreamGoing stream.now fed }
    ensures put { IfOk result (λ more. PutsOne more stream.now text.old.items text.new.items) }
    ensures stopped { IfErr result (IsFrontStop stream.now) }
{
    let base = fed - stream.held() as u64;
    match stream.peek() {
        Ok(Some(view)) => match put_views(alloc, text, base, &view) {
            Ok(()) => Ok(true),
            Err(NoMemory) => Err(StreamFault::NoMemory),
        },
        Ok(None) => Ok(false),
        Err(fault) => Err(fault),
    }
}

/// Puts the lines of the messages of the PDU in front, and gives it up.
#[tactic(auto, using(crate::proofs::StreamLemmas::adds_front))]
pub fn write_front<K: Sink>(
    stream: &mut Stream,
    lines: &[u8],
    page: &mut Page,
    sink: &mut K,
) -> Result<(), Failed>
    requires front { PutsFront stream.old [] lines.now }
    ensures puts { PutsOn K.taken K.faults page.old page.new sink.old sink.new result lines.now }
    ensures passed { OnOk result (AddsPdu stream.old stream.new lines.now) }
{
    match page.put(sink, lines) {
        Ok(()) => {
            stream.pass();
            Ok(())
        }
        Err(fault) => Err(fault),
    }
}

/// The octets that are fed next, from this place on.
pub fn piece_at(octets: &[u8], at: usize) -> &[u8]
    requires { at ≤ length octets.now }
    ensures { result.now ≡ take (min (length octets.now - at) 2048) (drop at octets.now) }
{
    let (_, rest) = octets.split_at(at);
    let (piece, _) = rest.split_at(rest.len().min(PIECE));
    piece
}

/// The outcome of so many octets, of which so many are left behind the last PDU.
pub fn outcome_with(len: usize, left: usize) -> Outcome
    requires { left ≤ len }
    ensures { result ≡ (if left == 0 then Outcome.Done else Outcome.Unfinished (len - left)) }
{
    if left == 0 {
        Outcome::Done
    } else {
        Outcome::Unfinished {
            at: (len - left) as u64,
        }
    }
}

/// The outcome where a stream has this fault, or memory was refused.
pub fn outcome_at(fault: StreamFault) -> Outcome
    ensures { result ≡ outcome_at fault }
{
    match fault {
        StreamFault::Refused { .. } => Outcome::DecodeRefused(fault),
        StreamFault::NoMemory => Outcome::NoMemory,
    }
}

/// Writes what waits, of a call that ends so where it is taken.
pub fn flush_page<K: Sink>(page: &mut Page, sink: &mut K, outcome: Outcome) -> Outcome
    ensures { Flushes outcome result (lines_written (K.taken sink.old) (K.faults sink.old) page.old) (lines_written (K.taken sink.new) (K.faults sink.new) []) }
{
    match page.flush(sink) {
        Ok(()) => outcome,
        Err(_) => Outcome::WriteFault,
    }
}
