//! Why a packet in a control channel is refused.
ghost use Rattle.std.specs.Prelude.{◌≡◌};
ghost use Rattle.vccv_channel.specs.Fault.{vccv_cause_of};

use net_base::DropCause;
use thiserror::Error;

/// Why a packet in a control channel is not taken in. Each is the drop cause of its name.
#[derive(Clone, Copy, Debug, PartialEq, Eq, Error)]
pub enum VccvFault {
    /// No whole associated channel header, or another version than 0 (RFC 4385 section 5).
    #[error("no associated channel header of version 0")]
    Version,
    /// Another channel type than IPv4 (RFC 4385 section 5).
    #[error("no channel of IPv4")]
    Channel,
    /// No whole IPv4 packet of ICMP with a header of five words (RFC 791 section 3.1).
    #[error("no whole IPv4 packet of ICMP")]
    Ip,
    /// A wrong checksum of the IPv4 header or of the ICMP message (RFC 791 section 3.1, RFC 792).
    #[error("a wrong checksum")]
    Checksum,
    /// No echo request or reply, or one with another identifier (RFC 792).
    #[error("no echo message of this pseudowire")]
    Icmp,
    /// A control channel that the ends did not agree on (RFC 5085 section 5).
    #[error("a control channel that was not agreed on")]
    NotOffered,
}

impl VccvFault {
    /// The drop cause of the same name.
    pub fn cause(self) -> DropCause
        ensures { result ≡ vccv_cause_of self }
    {
        match self {
            VccvFault::Version => DropCause::Version,
            VccvFault::Channel => DropCause::Channel,
            VccvFault::Ip => DropCause::Ip,
            VccvFault::Checksum => DropCause::Checksum,
            VccvFault::Icmp => DropCause::Icmp,
            VccvFault::NotOffered => DropCause::NotOffered,
        }
    }
}
