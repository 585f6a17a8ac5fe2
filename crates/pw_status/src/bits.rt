//! The bits of a status.
ghost use Rattle.std.specs.Prelude.{◌≡◌};
ghost use Rattle.pw_status.specs.Status.{combined, is_failure, is_standby};

use pw_tlvs::PwStatus;

// The five bits that tell a failure (RFC 4446 section 3.5).
const FAILURES: u32 = 0x1f;

// The bit of a pseudowire that stands by (RFC 6870).
const STANDBY: u32 = 0x20;

// The place of that bit.
const STANDBY_PLACE: u32 = 5;

/// Whether the status tells a failure: one of its bits 0x01, 0x02, 0x04, 0x08 and 0x10 is set (RFC 4446 section 3.5).
#[tactic(auto, using(crate::proofs::StatusLemmas::failure_is))]
pub fn fails(status: PwStatus) -> bool
    ensures failure { result ≡ is_failure status }
{
    status.0 & FAILURES != 0
}

/// Whether the status tells that the pseudowire stands by: its bit 0x20 is set (RFC 6870).
pub fn standby(status: PwStatus) -> bool
    ensures standby { result ≡ is_standby status }
{
    status.0 >> STANDBY_PLACE & 1 == 1
}

/// The status with these bits, and with the standby bit too where it is to be set.
#[tactic(auto, using(crate::proofs::StatusLemmas::or_standby))]
pub fn combine(bits: u8, standby: bool) -> PwStatus
    ensures status { result ≡ combined bits standby }
{
    if standby {
        PwStatus(bits as u32 | STANDBY)
    } else {
        PwStatus(bits as u32)
    }
}
