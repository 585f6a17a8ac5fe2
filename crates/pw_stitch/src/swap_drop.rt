//! Why a packet is not passed on.
ghost use Rattle.std.specs.Prelude.{◌≡◌};
ghost use Rattle.pw_stitch.specs.Drop.{dropped_for};

use net_base::DropCause;
use thiserror::Error;

/// Why a switching point does not pass a packet on. Each is the drop cause of its name.
#[derive(Clone, Copy, Debug, PartialEq, Eq, Error)]
pub enum SwapDrop {
    /// No label is bound on the other side.
    #[error("no label is bound on the other side")]
    NoBinding,
    /// The TTL would be 0 (RFC 3032 section 2.4.2).
    #[error("the TTL has run out")]
    Expired,
}

impl SwapDrop {
    /// The drop cause of the same name.
    pub fn cause(self) -> DropCause
        ensures { result ≡ dropped_for self }
    {
        match self {
            SwapDrop::NoBinding => DropCause::NoBinding,
            SwapDrop::Expired => DropCause::Expired,
        }
    }
}
