//! How a call of the program ends.
ghost use Rattle.std.specs.Prelude.{◌≡◌};
ghost use Rattle.vplsnet.specs.Finish.{exit_status};

use crate::audit_rule::AuditRule;
use ldp_stream::StreamFault;
use net_base::Word;
use pcap_file::CaptureFault;
use psn_net::NetStop;
use scenario_text::ScenarioFault;

/// How a call of the program ended.
#[derive(Debug, Drop)]
pub enum Outcome {
    /// The whole input was read and the whole text was taken.
    Done,
    /// The words are not those of a command.
    Usage,
    /// The shelf's count of faults rose for the name of the file that comes next: one of the words, or one that the scenario
    /// plays. Nothing was taken.
    ReadFault,
    /// The sink failed. What was taken is a front of the text.
    WriteFault,
    /// The named file has more octets than its limit. Nothing was taken.
    TooLong { name: Word, limit: u64 },
    /// The scenario has this first fault, which is not want of memory. Nothing was taken.
    ScenarioRefused(ScenarioFault),
    /// The scenario is accepted, and has no circuit of this name. Nothing was taken.
    NoCircuit(Word),
    /// The scenario is accepted, and this file that it plays has this first fault, which is not want of memory. Nothing was taken.
    CaptureRefused(Word, CaptureFault),
    /// The scenario is accepted, and the script has its first fault at this word of this line, both counted from 1. Nothing was taken.
    ScriptRefused { line: u32, word: u32 },
    /// The scenario is accepted, and the report breaks this rule, first in this line, counted from 1. It breaks no rule before this one.
    /// Nothing was taken.
    AuditRefused { line: u64, rule: AuditRule },
    /// A limit of the run stopped it, which is not want of memory. The report of what was done before was taken, of a script too, and of
    /// another command nothing.
    Stopped(NetStop),
    /// The stream has this first fault, which is not want of memory. The lines of the messages before it were taken.
    DecodeRefused(StreamFault),
    /// The stream ends within a PDU that begins at `at`, in octets from 0. The lines of the messages before it were
    /// taken.
    Unfinished { at: u64 },
    /// Memory was refused. Nothing was taken, or of a stream a front of the lines of its messages.
    NoMemory,
}

impl Outcome {
    /// The status with which the program ends.
    pub fn status(&self) -> u8
        ensures { result ≡ exit_status self.now }
    {
        match self {
            Outcome::Done => 0,
            Outcome::Usage => 2,
            Outcome::ReadFault => 3,
            Outcome::WriteFault => 4,
            Outcome::TooLong { .. }
            | Outcome::ScenarioRefused(_)
            | Outcome::NoCircuit(_)
            | Outcome::ScriptRefused { .. } => 5,
            Outcome::CaptureRefused(..)
            | Outcome::AuditRefused { .. }
            | Outcome::DecodeRefused(_)
            | Outcome::Unfinished { .. } => 6,
            Outcome::Stopped(_) => 7,
            Outcome::NoMemory => 8,
        }
    }
}
