//! All that the program does.
ghost use Rattle.std.specs.Prelude.{◌≡◌, ◌↔◌, None, map, string_bytes, IfSome};
ghost use Rattle.vplsnet.specs.{Answers.{Completes, Finishes}, Around.{around, gained}, Asked.{asked}, Finish.{exit_status}};
ghost use Rattle.vplsnet.specs.Reads.{GainsReads, MayRead};

use crate::audit::audit_files;
use crate::decode::decode_file;
use crate::discover::discover_files;
use crate::finish::Finish;
use crate::migrate::migrate_file;
use crate::outcome::Outcome;
use crate::request::{Request, request_of};
use crate::run_files::run_files;
use crate::switchover::switchover_files;
use net_base::{Shelf, Sink};
use std::alloc::Global;

/// Does what the words ask, over a shelf of files and a sink for the text. What is said of files is said of all files with which the
/// answers of the shelf agree. `Usage` comes exactly where the words are no row below.
///
/// `replay FILE`, `tables FILE` and `capture FILE CIRCUIT` read a scenario, of at most 8,388,608 octets, and run it. In this order come
/// `ReadFault` and `TooLong` of the file, `ScenarioRefused`, `NoCircuit`, and then, for each capture that the scenario plays, in the order
/// of its events and of at most 67,108,864 octets, `ReadFault`, `TooLong` and `CaptureRefused`. `rehearse SEED` reads no file, and runs the
/// scenario that the seed makes. Only then something is written: the report of the run, the tables of the network after it, a
/// capture of the frames that left the circuit, or the seed and the counts of the run. Where a limit stopped the run, which is `Stopped`,
/// the report of what was done before is written, and of the other three nothing.
///
/// `decode FILE` reads a stream of LDP PDUs (RFC 5036 section 3.1), of at most 67,108,864 octets, and writes a line for
/// each message, those before a fault too; then come `DecodeRefused` where the stream has a fault, and `Unfinished` where it ends
/// within a PDU.
///
/// `migrate FILE` reads a scenario and writes a text of version 2 that is read as the same scenario. No run begins, and the captures that
/// it plays are not read.
///
/// `discover FILE SCRIPT` reads a scenario and then a script, of at most 8,388,608 octets, and does the lines of the script over the network of
/// the scenario, whose own events are not done. In this order come `ReadFault` and `TooLong` of the file, `ScenarioRefused`, `ReadFault` and
/// `TooLong` of the script, and `ScriptRefused`. Only then the report of the script is written, also where a limit stopped it. A connection
/// opens only where both edges hold a Hello adjacency with the other one (RFC 5036 section 2.4.2).
///
/// `switchover FILE SCRIPT` reads both in the same order, and has the edges of the scenario, in independent mode (RFC 6870 section 4),
/// exchange statuses as the lines of the script say. No run of the network begins.
///
/// `audit FILE REPORT` reads a scenario and then a report, of at most 67,108,864 octets, and writes `audit yes` where the report meets the
/// rules for the plan of the scenario, and else nothing: behind `ReadFault` and `TooLong` of the report comes `AuditRefused`, the first rule
/// that fails at the first line where it does. No run begins.
///
/// Only files that come next in this order are read, each for at most one octet more than its limit.
///
/// `ReadFault` comes only where the shelf's count for the name rose, and `WriteFault` only where the sink's count rose; a front of the
/// text was then taken. `NoMemory` may come at any time before the writing, and of `decode` also within it.
#[tactic(auto, using(crate::proofs::AnswerLemmas::word_steps, crate::proofs::ReadLemmas::run_reads))]
pub fn run<F: Shelf, K: Sink>(
    alloc: Global,
    words: &[String],
    shelf: &mut F,
    sink: &mut K,
) -> Finish
    // The status is that of the outcome.
    ensures status { result.status ≡ exit_status result.outcome }
    // Words that ask for nothing, and nothing else, are a usage.
    ensures usage { (result.outcome ≡ Outcome.Usage) ↔ (asked (map string_bytes words.now) ≡ None) }
    // What each outcome says, its cause among it: what was read, what was taken, and the network after the run.
    ensures answers { Finishes (around F.reads F.faults K.taken K.faults shelf.old sink.old shelf.new sink.new) (asked (map string_bytes words.now)) result.network result.outcome }
    // A file with which the answers agree is answered by what it is, unless a fault was counted or memory was refused.
    ensures complete { IfSome (asked (map string_bytes words.now)) (λ asked. Completes (around F.reads F.faults K.taken K.faults shelf.old sink.old shelf.new sink.new) asked result.outcome) }
    // Only files that come next are read, each for at most one octet more than its limit.
    ensures reads { GainsReads (MayRead (gained (F.reads shelf.old) (F.reads shelf.new)) (asked (map string_bytes words.now))) (F.reads shelf.old) (F.reads shelf.new) }
{
    let request = match request_of(words) {
        Some(request) => request,
        None => return Finish::without_run(Outcome::Usage),
    };
    match request {
        Request::Run(request) => run_files(alloc, request, shelf, sink),
        Request::Decode { file } => decode_file(alloc, file, shelf, sink),
        Request::Migrate { file } => migrate_file(alloc, file, shelf, sink),
        Request::Discover { file, script } => discover_files(alloc, file, script, shelf, sink),
        Request::Switchover { file, script } => switchover_files(alloc, file, script, shelf, sink),
        Request::Audit { file, report } => audit_files(alloc, file, report, shelf, sink),
    }
}
