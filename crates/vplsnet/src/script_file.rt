//! A script that is read behind a scenario.
ghost use Rattle.std.specs.Prelude.{◌≡◌};
ghost use Rattle.vplsnet.specs.ScriptFile.{outcome_of_script};

use crate::outcome::Outcome;
use script_text::ScriptFault;

/// The most octets of a script.
pub const SCRIPT_LIMIT: usize = 8_388_608;

/// The outcome of a script with this fault, which is told by its place; want of memory is no fault of the script.
pub fn refused(fault: ScriptFault) -> Outcome
    ensures { result ≡ outcome_of_script fault }
{
    match fault {
        ScriptFault::Bad { line, word } => Outcome::ScriptRefused { line, word },
        ScriptFault::NoMemory => Outcome::NoMemory,
    }
}
