//! The messages about a pseudowire.
ghost use Rattle.std.specs.Prelude.{◌≡◌, ◌≤◌, ◌+◌, true, length};
ghost use Rattle.ldp_grammar.specs.Written.{address_octets, mac_count, message_octets, writable};
ghost use Rattle.pw_tlvs.specs.Written.{has_vlan};
ghost use Rattle.pw_messages.specs.Content.{mac_withdrawal, mapping, release, status_notification, withdrawal};

use crate::content::{bare, bare_fec_of, fec_of};
use ldp_grammar::{Message, StatusCode, points_size};
use net_base::{Label, List, Mac};
use pw_signalling::Told;
use pw_tlvs::{PwFec, PwStatus, fec_size, macs_size};

/// The status data of a Notification that tells the status of a pseudowire (RFC 8077 section 6.3.2).
pub const PW_STATUS_CODE: u32 = 0x28;

/// A Label Mapping with this Message ID (RFC 5036 section 3.5.7): it binds the label to the pseudowire with this content. It
/// can be written where the PW type has 15 bits and the VLAN ID 12, and a PDU with it alone has a PDU Length of at most 256.
pub fn mapping(pw_id: u32, label: Label, told: &Told, id: u32) -> Message
    ensures message { result ≡ mapping pw_id label told.now id }
    ensures writable { told.now.kind ≤ 0x7FFF → has_vlan told.now.vlan ≡ true → writable result ≡ true }
    ensures short { 6 + length (message_octets result) ≤ 256 }
    ensures no_addresses { address_octets result ≡ 0 }
    ensures no_macs { mac_count result ≡ 0 }
{
    let fec = fec_of(pw_id, told);
    // How long a mapping is at most follows from the sizes of its two long parts.
    let _ = (fec_size(&fec), points_size(&told.points));
    Message::LabelMapping {
        id,
        fec,
        label,
        pw_status: told.status,
        points: told.points,
    }
}

/// A Label Withdraw with this Message ID (RFC 5036 section 3.5.10) of a label that was advertised with this content. It can be
/// written where the PW type has 15 bits, and a PDU with it alone has a PDU Length of at most 256.
pub fn withdrawal(pw_id: u32, label: Label, told: &Told, id: u32) -> Message
    ensures message { result ≡ withdrawal pw_id label told.now id }
    ensures writable { told.now.kind ≤ 0x7FFF → writable result ≡ true }
    ensures short { 6 + length (message_octets result) ≤ 256 }
    ensures no_addresses { address_octets result ≡ 0 }
    ensures no_macs { mac_count result ≡ 0 }
{
    Message::LabelWithdraw {
        id,
        fec: bare_fec_of(pw_id, told),
        label: Some(label),
    }
}

/// A Label Release with this Message ID (RFC 5036 section 3.5.11) of what came with this FEC and label. It can be written
/// where the PW type has 15 bits, and a PDU with it alone has a PDU Length of at most 256.
pub fn release(fec: &PwFec, label: Option<Label>, id: u32) -> Message
    ensures message { result ≡ release fec.now label id }
    ensures writable { fec.now.kind ≤ 0x7FFF → writable result ≡ true }
    ensures short { 6 + length (message_octets result) ≤ 256 }
    ensures no_addresses { address_octets result ≡ 0 }
    ensures no_macs { mac_count result ≡ 0 }
{
    Message::LabelRelease {
        id,
        fec: bare(fec),
        label,
    }
}

/// A Notification with this Message ID that tells the status of a pseudowire with this content (RFC 8077 section 6.3.2). It can
/// be written where the PW type has 15 bits, and a PDU with it alone has a PDU Length of at most 256.
pub fn status_notification(pw_id: u32, status: PwStatus, told: &Told, id: u32) -> Message
    ensures message { result ≡ status_notification pw_id status told.now id }
    ensures writable { told.now.kind ≤ 0x7FFF → writable result ≡ true }
    ensures short { 6 + length (message_octets result) ≤ 256 }
    ensures no_addresses { address_octets result ≡ 0 }
    ensures no_macs { mac_count result ≡ 0 }
{
    Message::Notification {
        id,
        status: StatusCode {
            fatal: false,
            forward: false,
            code: PW_STATUS_CODE,
            message: 0,
            kind: 0,
        },
        pw_status: Some(status),
        fec: Some(bare_fec_of(pw_id, told)),
    }
}

/// A MAC withdraw with this Message ID (RFC 4762 section 6.2) on a pseudowire with this content: the receiver forgets these
/// addresses, and where there are none all that it has learned elsewhere. It can be written where the PW type has 15 bits, and
/// of at most 30 addresses a PDU with it alone has a PDU Length of at most 256.
pub fn mac_withdrawal(pw_id: u32, addresses: List<Mac>, told: &Told, id: u32) -> Message
    ensures message { result ≡ mac_withdrawal pw_id addresses told.now id }
    ensures writable { told.now.kind ≤ 0x7FFF → writable result ≡ true }
    ensures short { length addresses ≤ 30 → 6 + length (message_octets result) ≤ 256 }
    ensures no_addresses { address_octets result ≡ 0 }
    ensures macs { mac_count result ≡ length addresses }
{
    let fec = bare_fec_of(pw_id, told);
    // How long a MAC withdraw is at most follows from the size of its list.
    let _ = macs_size(&addresses);
    Message::AddressWithdraw {
        id,
        addresses: None,
        fec: Some(fec),
        macs: Some(addresses),
    }
}
