//! Why a frame or a packet is refused.
ghost use Rattle.std.specs.Prelude.{◌≡◌};
ghost use Rattle.eth_encap.specs.Fault.{cause_of};

use net_base::DropCause;
use thiserror::Error;

/// Why a frame or a packet is not taken in. Each is the drop cause of its name.
#[derive(Clone, Copy, Debug, PartialEq, Eq, Error)]
pub enum FrameFault {
    /// Too few octets for its layout.
    #[error("too few octets")]
    Short,
    /// More octets than the service's MTU leaves room for.
    #[error("more octets than the MTU leaves room for")]
    Long,
    /// A VLAN tag with another VLAN ID than the circuit's.
    #[error("another VLAN ID")]
    WrongTag,
    /// No VLAN tag where one is needed.
    #[error("no VLAN tag")]
    NoTag,
    /// A control word whose first nibble is not 0 (RFC 4448 section 4.6).
    #[error("no control word of a frame")]
    BadNibble,
    /// A label stack that goes on below the pseudowire label (RFC 3032 section 2.1).
    #[error("more labels below the pseudowire label")]
    NotBottom,
    /// A label stack entry with TTL 0 (RFC 3032 section 2.4).
    #[error("TTL 0")]
    Ttl,
}

impl FrameFault {
    /// The drop cause of the same name.
    pub fn cause(self) -> DropCause
        ensures { result ≡ cause_of self }
    {
        match self {
            FrameFault::Short => DropCause::Short,
            FrameFault::Long => DropCause::Long,
            FrameFault::WrongTag => DropCause::WrongTag,
            FrameFault::NoTag => DropCause::NoTag,
            FrameFault::BadNibble => DropCause::BadNibble,
            FrameFault::NotBottom => DropCause::NotBottom,
            FrameFault::Ttl => DropCause::Ttl,
        }
    }
}
