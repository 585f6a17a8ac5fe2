//! What an end tells of its status.
ghost use Rattle.std.specs.Prelude.{◌≡◌};
ghost use Rattle.pw_status.specs.Status.{combined};
ghost use Rattle.spoke_redundancy.specs.Telling.{is_not_chosen};

use pw_signalling::EndRole;
use pw_status::combine;
use pw_tlvs::PwStatus;

/// The status that an end of this role with these bits tells: its bits, and that it stands by, 0x20, also where it was not chosen
/// (RFC 4446 section 3.5, RFC 6870 section 5.2).
pub fn status_to_tell(role: EndRole, bits: u8) -> PwStatus
    ensures status { result ≡ combined bits (is_not_chosen role) }
{
    combine(bits, matches!(role, EndRole::NotChosen))
}
