//! Why a proposal is refused.
ghost use Rattle.std.specs.Prelude.{◌≡◌};
ghost use Rattle.session_core.specs.{Parameters.{refusal_reason}, Table.{data_refusing}};

use crate::notice::{BAD_KEEP_ALIVE_TIME, BAD_PROTOCOL_VERSION, NO_HELLO};
use net_base::Reason;

/// Why what an Initialization proposes is refused, in the order in which it is looked at (RFC 5036 section 3.5.3).
#[derive(Clone, Copy, Debug, PartialEq, Eq)]
pub enum Refusal {
    /// The version is not 1.
    Version,
    /// The receiver is not this end with label space 0.
    Receiver,
    /// The KeepAlive Time is 0.
    KeepAliveTime,
}

impl Refusal {
    /// The reason for which the session ends.
    pub fn reason(self) -> Reason
        ensures { result ≡ refusal_reason self }
    {
        match self {
            Refusal::Version => Reason::BadVersion,
            Refusal::Receiver => Reason::BadReceiver,
            Refusal::KeepAliveTime => Reason::ZeroKeepAlive,
        }
    }

    /// The status data that tells it (RFC 5036 section 3.9).
    pub fn data(self) -> u32
        ensures { result ≡ data_refusing self }
    {
        match self {
            Refusal::Version => BAD_PROTOCOL_VERSION,
            Refusal::Receiver => NO_HELLO,
            Refusal::KeepAliveTime => BAD_KEEP_ALIVE_TIME,
        }
    }
}
