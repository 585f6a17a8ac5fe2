//! The command `decode`: the lines of a stream of LDP messages.
ghost use Rattle.std.specs.Prelude.{◌≡◌};
ghost use Rattle.vplsnet.specs.{Answers.{SaysOutcome}, Around.{Has, around, gained}, Asked.{Decode}, Finish.{exit_status}};
ghost use Rattle.vplsnet.specs.Reads.{GainsReads, IsReadOfNext};

use crate::decoder::Decoder;
use crate::finish::Finish;
use crate::named_file::octets_of;
use crate::outcome::Outcome;
use net_base::{NoMemory, Shelf, Sink};
use std::alloc::Global;

/// The most octets of a stream.
const STREAM_LIMIT: usize = 67_108_864;

/// Reads a stream whole, and writes a line for each LDP message of it (RFC 5036 section 3.1), those before a fault too. The lines go
/// to the sink page by page.
/// `DecodeRefused` comes exactly where the stream has a fault, and `Unfinished` where it ends within a PDU. No run begins.
#[tactic(auto, using(crate::proofs::AnswerLemmas::stream_not_had, crate::proofs::AnswerLemmas::refused_answers, crate::proofs::ReadLemmas::reads_none, crate::proofs::ReadLemmas::stream_reads))]
pub fn decode_file<F: Shelf, K: Sink>(
    alloc: Global,
    file: &str,
    shelf: &mut F,
    sink: &mut K,
) -> Finish
    ensures status { result.status ≡ exit_status result.outcome }
    ensures answers { SaysOutcome (around F.reads F.faults K.taken K.faults shelf.old sink.old shelf.new sink.new) (Decode file.now) result.network result.outcome }
    ensures reads { GainsReads (IsReadOfNext (Has (gained (F.reads shelf.old) (F.reads shelf.new))) (Decode file.now)) (F.reads shelf.old) (F.reads shelf.new) }
{
    let mut decoder = match Decoder::new(alloc) {
        Ok(decoder) => decoder,
        Err(NoMemory) => return Finish::without_run(Outcome::NoMemory),
    };
    match octets_of(alloc, shelf, file, STREAM_LIMIT) {
        Ok(octets) => Finish::without_run(decoder.write(alloc, octets.as_slice(), sink)),
        Err(outcome) => Finish::without_run(outcome),
    }
}
