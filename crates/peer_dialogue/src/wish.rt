//! What an end should tell.
ghost use Rattle.std.specs.Prelude.{◌≡◌, ◌≤◌, true, option_copied, IfSome};
ghost use Rattle.net_base.specs.plan.Accepted.{IsOffer};
ghost use Rattle.pw_tlvs.specs.Written.{has_vlan};
ghost use Rattle.pw_status.specs.Status.{method_by};
ghost use Rattle.edge_model.specs.Mend.{status_held, tells_status};
ghost use Rattle.peer_dialogue.specs.Wish.{wish_of_offer};

use net_base::Offer;
use pw_messages::content_of;
use pw_signalling::{Binding, Told};
use pw_status::{Method, method_of};
use pw_tlvs::PwStatus;

/// What a terminal end with this offer and these failure bits should tell, where its wire is on and its session is up: the
/// offer, with this status where the offer tells one; nothing where the end has failure bits and tells them by a withdrawal,
/// since one of the two ends tells no status (RFC 8077 section 6.3.3). `remote` is the binding that the end holds.
pub fn terminal_wish(
    offer: &Offer,
    remote: Option<&Binding>,
    bits: u8,
    status: PwStatus,
) -> Option<Told>
    ensures wish { result ≡ wish_of_offer offer.now (option_copied remote.entry) bits status }
    ensures kind { IfSome result (λ told. told.kind ≤ 0x7FFF) }
    ensures vlan { IsOffer offer.now → IfSome result (λ told. has_vlan told.vlan ≡ true) }
{
    if !tells_status(offer, remote) && bits != 0 {
        return None;
    }
    let offered = if offer.status { Some(status) } else { None };
    Some(content_of(offer, offered))
}

// Whether the end tells its peer of failures by a status.
fn tells_status(offer: &Offer, remote: Option<&Binding>) -> bool
    ensures { result ≡ tells_status (method_by offer.now.status (status_held (option_copied remote.entry))) }
{
    let held = match remote {
        Some(binding) => Some(binding.told.status),
        None => None,
    };
    matches!(method_of(offer.status, held), Method::Told)
}
