//! What is told of a pseudowire.
ghost use Rattle.std.specs.Prelude.{◌≡◌, ◌≤◌, true};
ghost use Rattle.net_base.specs.plan.Accepted.{IsOffer};
ghost use Rattle.pw_tlvs.specs.Written.{has_vlan};
ghost use Rattle.pw_messages.specs.Content.{bare, bare_fec_of, binding_in, content_of, fec_of};

use net_base::{Label, Offer};
use pw_signalling::{Binding, Told};
use pw_tlvs::{IfParams, Points, PwFec, PwStatus};

// The PW types (RFC 4446 section 3.2).
const ETHERNET_TAGGED: u16 = 0x0004;

const ETHERNET_RAW: u16 = 0x0005;

// The connectivity verification type of an ICMP ping (RFC 5085 section 5.3.1).
const ICMP_PING: u8 = 0x01;

/// What a terminal edge tells by its offer, with a status or without one (RFC 8077 section 6).
#[tactic(auto, using(crate::proofs::TellLemmas::offers_vlan))]
pub fn content_of(offer: &Offer, status: Option<PwStatus>) -> Told
    ensures told { result ≡ content_of offer.now status }
    ensures kind { result.kind ≤ 0x7FFF }
    ensures vlan { IsOffer offer.now → has_vlan result.vlan ≡ true }
{
    let kind = if offer.tagged {
        ETHERNET_TAGGED
    } else {
        ETHERNET_RAW
    };
    let vccv = match offer.vccv {
        Some(channels) => Some((channels, ICMP_PING)),
        None => None,
    };
    Told {
        c: offer.cword,
        kind,
        group: offer.group,
        mtu: offer.mtu,
        vlan: offer.vlan,
        vccv,
        description: offer.description,
        status,
        points: Points::empty(),
    }
}

/// The FEC of a Label Mapping with this content (RFC 8077 section 6.1).
pub fn fec_of(pw_id: u32, told: &Told) -> PwFec
    ensures fec { result ≡ fec_of pw_id told.now }
{
    PwFec {
        c: told.c,
        kind: told.kind,
        group: told.group,
        pw_id: Some(pw_id),
        params: IfParams {
            mtu: told.mtu,
            description: told.description,
            vlan: told.vlan,
            vccv: told.vccv,
        },
    }
}

/// The FEC of every other message about an end: what the end has told, without parameters.
pub fn bare_fec_of(pw_id: u32, told: &Told) -> PwFec
    ensures fec { result ≡ bare_fec_of pw_id told.now }
{
    PwFec {
        c: told.c,
        kind: told.kind,
        group: told.group,
        pw_id: Some(pw_id),
        params: IfParams::none(),
    }
}

/// A FEC that came, without its parameters.
pub fn bare(fec: &PwFec) -> PwFec
    ensures fec { result ≡ bare fec.now }
{
    PwFec {
        params: IfParams::none(),
        ..*fec
    }
}

/// The binding that a Label Mapping tells.
pub fn binding_in(fec: &PwFec, label: Label, status: Option<PwStatus>, points: &Points) -> Binding
    ensures binding { result ≡ binding_in fec.now label status points.now }
{
    Binding {
        label,
        told: Told {
            c: fec.c,
            kind: fec.kind,
            group: fec.group,
            mtu: fec.params.mtu,
            vlan: fec.params.vlan,
            vccv: fec.params.vccv,
            description: fec.params.description,
            status,
            points: *points,
        },
    }
}
