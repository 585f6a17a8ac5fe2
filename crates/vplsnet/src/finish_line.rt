//! The line that tells how a call ended.
ghost use Rattle.std.specs.Prelude.{◌≡◌, ◌≢◌, codes, IfOk, OnOk};
ghost use Rattle.vplsnet.specs.Finish.{finish_text};

use crate::audit_rule_text::put_rule;
use crate::capture_fault_text::put_capture_fault;
use crate::fault_text::put_fault;
use crate::outcome::Outcome;
use crate::script_place_text::put_script_place;
use crate::stop_text::put_stop;
use crate::stream_fault_text::put_stream_fault;
use net_base::NoMemory;
use std::alloc::Global;
use text_pieces::{put_number, put_text};

/// The line, without a line feed, that tells on standard error how a call ended that was not done.
pub fn finish_line(alloc: Global, outcome: &Outcome) -> Result<Vec<u8>, NoMemory>
    requires { outcome.now ≢ Outcome.Done }
    ensures { IfOk result (λ line. line.items ≡ finish_text outcome.now) }
{
    let mut line = Vec::from_slice(alloc, b"vplsnet: ")?;
    put_outcome(&mut line, outcome)?;
    Ok(line)
}

// Adds how a call ended to the name of the program.
#[tactic(auto, using(crate::proofs::FaultLemmas::line_steps))]
fn put_outcome(line: &mut Vec<u8>, outcome: &Outcome) -> Result<(), NoMemory>
    requires some { outcome.now ≢ Outcome.Done }
    requires begun { line.old.items ≡ codes "vplsnet: " }
    ensures { OnOk result (line.new.items ≡ finish_text outcome.now) }
{
    match outcome {
        Outcome::Done => unreachable!(),
        Outcome::Usage => put_text(line, b"usage"),
        Outcome::ReadFault => put_text(line, b"read fault"),
        Outcome::WriteFault => put_text(line, b"write fault"),
        Outcome::TooLong { name, limit } => {
            put_text(line, name.as_slice())?;
            put_text(line, b" is longer than ")?;
            put_number(line, *limit)
        }
        Outcome::ScenarioRefused(fault) => {
            put_text(line, b"scenario:")?;
            put_fault(line, *fault)
        }
        Outcome::NoCircuit(circuit) => {
            put_text(line, b"no circuit ")?;
            put_text(line, circuit.as_slice())
        }
        Outcome::CaptureRefused(file, fault) => {
            put_text(line, b"capture ")?;
            put_text(line, file.as_slice())?;
            put_text(line, b":")?;
            put_capture_fault(line, *fault)
        }
        Outcome::ScriptRefused { line: at, word } => {
            put_text(line, b"script:")?;
            put_script_place(line, *at, *word)
        }
        Outcome::AuditRefused { line: at, rule } => {
            put_text(line, b"audit:")?;
            put_rule(line, *at, *rule)
        }
        Outcome::Stopped(stop) => {
            put_text(line, b"stopped:")?;
            put_stop(line, *stop)
        }
        Outcome::DecodeRefused(fault) => {
            put_text(line, b"stream:")?;
            put_stream_fault(line, *fault)
        }
        Outcome::Unfinished { at } => {
            put_text(line, b"stream ends at ")?;
            put_number(line, *at)
        }
        Outcome::NoMemory => put_text(line, b"out of memory"),
    }
}
