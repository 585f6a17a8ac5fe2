//! Faults of the octets of a PDU.
ghost use Rattle.std.specs.Prelude.{◌≡◌, ◌+◌, ◌<◌, ◌^◌};
ghost use Rattle.ldp_grammar.specs.FirstFault.{moved};

use crate::Cause;

/// A fault at its place.
#[derive(Clone, Copy, Debug, PartialEq, Eq)]
pub struct Fault {
    /// The octet at fault, counted from the first octet of what is read.
    pub place: u16,
    /// What is wrong there.
    pub cause: Cause,
}

impl Fault {
    /// The same fault, counted from so many octets before.
    pub fn behind(self, count: u16) -> Fault
        requires { count + self.place < 2 ^ 16 }
        ensures { result ≡ moved count self }
    {
        Fault {
            place: count + self.place,
            cause: self.cause,
        }
    }
}
