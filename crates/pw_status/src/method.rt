//! How a pseudowire's failure is told.
ghost use Rattle.std.specs.Prelude.{◌≡◌};
ghost use Rattle.pw_status.specs.Status.{method_by};

use pw_tlvs::PwStatus;

/// How an end tells that its pseudowire does not work (RFC 8077 section 6.3).
#[derive(Clone, Copy, Debug, PartialEq, Eq)]
pub enum Method {
    /// By a status, in its Label Mapping and in Notifications (RFC 8077 section 6.3.2).
    Told,
    /// By a Label Withdraw, since one of the two ends tells no status (RFC 8077 section 6.3.1).
    Withdrawn,
}

/// How an end tells failures (RFC 8077 section 6.3.3), where `offers` says whether it offers to tell a status, and `remote`
/// is what is known of the peer: nothing as long as no Label Mapping is known, else the status of the one that is known,
/// where it has one. It is `Told` exactly where the end offers status and the peer's mapping is not known or has a status.
pub fn method_of(offers: bool, remote: Option<Option<PwStatus>>) -> Method
    ensures method { result ≡ method_by offers remote }
{
    match remote {
        None | Some(Some(_)) if offers => Method::Told,
        _ => Method::Withdrawn,
    }
}
