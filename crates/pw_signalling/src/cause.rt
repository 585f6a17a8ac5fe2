//! Why an end that advertises and is bound does not forward.
ghost use Rattle.std.specs.Prelude.{◌≡◌, Some};
ghost use Rattle.pw_signalling.specs.Down.{fails_in, first_cause, mtus_differ, stands_by};

use crate::{EndRole, Told};
use net_base::Down;
use pw_status::{fails, standby};
use pw_tlvs::PwStatus;

// The first cause that holds of what both ends tell.
pub(crate) fn cause(role: EndRole, bits: u8, own: &Told, far: &Told) -> Option<Down>
    ensures { result ≡ first_cause role bits (Some own.now) (Some far.now) }
{
    if own.c != far.c {
        return Some(Down::CBit);
    }
    if own.kind != far.kind {
        return Some(Down::Kind);
    }
    if are_apart(own.mtu, far.mtu) {
        return Some(Down::Mtu);
    }
    if bits != 0 {
        return Some(Down::LocalFault);
    }
    if is_failing(far.status) {
        return Some(Down::RemoteFault);
    }
    if is_waiting(role, far.status) {
        return Some(Down::Standby);
    }
    None
}

// Whether both MTUs are told and differ.
fn are_apart(own: Option<u16>, far: Option<u16>) -> bool
    ensures { result ≡ mtus_differ own far }
{
    match (own, far) {
        (Some(own), Some(far)) => own != far,
        _ => false,
    }
}

// Whether the status is told and tells a failure.
fn is_failing(status: Option<PwStatus>) -> bool
    ensures { result ≡ fails_in status }
{
    match status {
        Some(status) => fails(status),
        None => false,
    }
}

// Whether an end of this role stands by, where the peer tells this status.
fn is_waiting(role: EndRole, status: Option<PwStatus>) -> bool
    ensures { result ≡ stands_by role status }
{
    match (role, status) {
        (EndRole::NotChosen, _) => true,
        (EndRole::Core, Some(status)) => standby(status),
        _ => false,
    }
}
