//! The lines of a script.

use command_text::Command;
use net_base::EdgeId;

/// One line of a script.
#[derive(Debug, Drop)]
pub enum ScriptLine {
    /// An edge says a Hello to another one, with a hold time in ticks (RFC 5036 section 3.5.2).
    Hello { from: EdgeId, to: EdgeId, hold: u16 },
    /// The Hello of this number is heard where it was said to.
    Bring { number: u64 },
    /// A connection opens, where the adjacencies of both edges live.
    Open { from: EdgeId, to: EdgeId },
    /// A tick passes for the adjacencies and for the network.
    Tick,
    /// A command of the network.
    Do(Command),
}
