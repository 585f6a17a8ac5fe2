//! Why a list of addresses is not read.

use crate::FieldFault;
use net_values::NoMemory;
use thiserror::Error;

/// Why the value of a MAC List TLV is not read.
#[derive(Clone, Copy, Debug, PartialEq, Eq, Error)]
pub enum MacsFault {
    /// The octets are no list of addresses.
    #[error("no list of addresses")]
    Field(FieldFault),
    /// Memory was refused.
    #[error("out of memory")]
    NoMemory,
}

impl From<NoMemory> for MacsFault {
    ghost use Rattle.std.specs.Prelude.{◌≡◌};
    ghost use Rattle.pw_tlvs.specs.declared.macs_fault.MacsFault.TheVariants as fault;

    ghost from_gives = { λ _ e. e ≡ fault.NoMemory };

    fn from(_: NoMemory) -> MacsFault {
        MacsFault::NoMemory
    }
}
