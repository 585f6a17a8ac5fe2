//! Which messages can be written, and how long they are.
ghost use Rattle.std.specs.Prelude.{◌≡◌, ◌≤◌, ◌<◌, ◌+◌, ◌*◌, ◌++◌, true, length, flat_map};
ghost use Rattle.ldp_grammar.specs.Tlvs.{spell_tlv};
ghost use Rattle.ldp_grammar.specs.Written.{address_octets, are_whole, fec_tlvs, is_withdrawal, label_tlvs, list_length, mac_count, mac_tlvs, macs_length, message_octets, point_tlvs, session_octets, status_tlvs, transport_tlvs, withdrawn_tlvs, writable, writable_fecs, written_tlvs};

use crate::headers::{MESSAGE_HEADER, TLV_HEADER};
use crate::{AddressList, Message, SessionParams};
use net_values::{Addr, Label, List, Mac, Octets};
use pw_tlvs::{Points, PwFec, PwStatus, fec_size, is_writable_fec, macs_size, point_size};

// Status data has 30 bits.
const CODE_LIMIT: u32 = 0x4000_0000;

// Whether the octets are whole addresses of their family.
fn is_whole(family: u16, octets: &Octets) -> bool
    ensures { result ≡ are_whole family octets.now }
{
    !(family == 1 && octets.len() % 4 != 0)
}

// Whether a FEC, where it is told, can be written.
fn is_fec_told(fec: &Option<PwFec>) -> bool
    ensures { result ≡ writable_fecs fec.now }
{
    match fec {
        Some(fec) => is_writable_fec(fec),
        None => true,
    }
}

// Whether whole addresses are withdrawn, or what was learned on a pseudowire.
fn is_withdrawal(
    addresses: &Option<AddressList>,
    fec: &Option<PwFec>,
    macs: &Option<List<Mac>>,
) -> bool
    ensures { result ≡ is_withdrawal addresses.now fec.now macs.now }
{
    match addresses {
        Some(list) => is_whole(list.family, &list.octets),
        None => fec.is_some() && macs.is_some(),
    }
}

/// Whether a message can be written: false exactly for `Other`; for `Unprocessed`; for status data above 30 bits; for a
/// PW type above 15 bits; for a VLAN ID above 4095; for a FEC without PW ID that has parameters; for a `LabelMapping`
/// whose FEC has no PW ID; for addresses of family 1 whose octets are not a multiple of 4; and for an `AddressWithdraw`
/// that has neither an address list nor both a FEC and a MAC list.
pub fn is_writable(message: &Message) -> bool
    ensures { result ≡ writable message.now }
{
    match message {
        Message::Notification { status, fec, .. } => status.code < CODE_LIMIT && is_fec_told(fec),
        Message::Address { family, octets, .. } => is_whole(*family, octets),
        Message::AddressWithdraw {
            addresses,
            fec,
            macs,
            ..
        } => is_withdrawal(addresses, fec, macs) && is_fec_told(fec),
        Message::LabelMapping { fec, .. } => fec.pw_id.is_some() && is_writable_fec(fec),
        Message::LabelRequest { fec, .. }
        | Message::LabelWithdraw { fec, .. }
        | Message::LabelRelease { fec, .. }
        | Message::LabelAbort { fec, .. } => is_writable_fec(fec),
        Message::Hello { .. } | Message::Initialization { .. } | Message::KeepAlive { .. } => true,
        Message::Other { .. } | Message::Unprocessed { .. } => false,
    }
}

// The octets of an IPv4 Transport Address TLV. The address is given, so that the prover knows how long it is.
fn address_size(address: Addr) -> usize
    ensures size { result ≡ 4 + length address.0 }
    ensures most { result ≡ 8 }
{
    TLV_HEADER + address.0.len()
}

// The octets of a Common Session Parameters TLV. They are given for the same reason.
fn params_size(params: SessionParams) -> usize
    ensures size { result ≡ 4 + length (session_octets params) }
    ensures most { result ≡ 18 }
{
    let router = params.receiver.router;
    TLV_HEADER + 10 + router.0.len()
}

// The octets of an IPv4 Transport Address TLV, where there is an address.
fn transport_size(transport: &Option<Addr>) -> usize
    ensures size { result ≡ length (flat_map spell_tlv (transport_tlvs transport.now)) }
    ensures most { result ≤ 8 }
{
    match transport {
        Some(address) => address_size(*address),
        None => 0,
    }
}

// The octets of a FEC TLV, where there is a FEC.
fn fec_told_size(fec: &Option<PwFec>) -> usize
    ensures size { result ≡ length (flat_map spell_tlv (fec_tlvs fec.now)) }
    ensures most { result ≤ 110 }
{
    match fec {
        Some(fec) => TLV_HEADER + fec_size(fec),
        None => 0,
    }
}

// The octets of a PW Status TLV, where there is a status.
fn status_size(status: Option<PwStatus>) -> usize
    ensures size { result ≡ length (flat_map spell_tlv (status_tlvs status)) }
    ensures most { result ≤ 8 }
{
    match status {
        Some(_) => TLV_HEADER + 4,
        None => 0,
    }
}

// The octets of a Generic Label TLV, where there is a label.
fn label_size(label: Option<Label>) -> usize
    ensures size { result ≡ length (flat_map spell_tlv (label_tlvs label)) }
    ensures most { result ≤ 8 }
{
    match label {
        Some(_) => TLV_HEADER + 4,
        None => 0,
    }
}

/// The octets of the Switching Point PE TLVs of these points, at most 66 (RFC 6073 section 7.4).
pub fn points_size(points: &Points) -> usize
    ensures size { result ≡ length (flat_map spell_tlv (point_tlvs points.now)) }
    ensures most { result ≤ 66 }
{
    let mut size = 0;
    let mut index = 0;
    'adding: while index < points.len() {
        let point = points.get(index).unwrap();
        size += TLV_HEADER + point_size(&point);
        index += 1;
    }
    size
}

// The octets of the TLVs of a withdrawal.
fn withdrawal_size(
    addresses: &Option<AddressList>,
    fec: &Option<PwFec>,
    macs: &Option<List<Mac>>,
) -> usize
    requires few { list_length addresses.now ≤ 65535 }
    requires few_macs { macs_length macs.now ≤ 65535 }
    ensures size { result ≡ length (flat_map spell_tlv (withdrawn_tlvs addresses.now ++ (fec_tlvs fec.now ++ mac_tlvs macs.now))) }
    ensures most { result ≤ 458865 }
{
    let list = match addresses {
        Some(list) => TLV_HEADER + 2 + list.octets.len(),
        None => 0,
    };
    let macs = match macs {
        Some(list) => TLV_HEADER + macs_size(list),
        None => 0,
    };
    list + (fec_told_size(fec) + macs)
}

// The octets of the TLVs of a message.
fn tlvs_size(message: &Message) -> usize
    requires few { address_octets message.now ≤ 65535 }
    requires few_macs { mac_count message.now ≤ 65535 }
    ensures size { result ≡ length (flat_map spell_tlv (written_tlvs message.now)) }
    ensures most { result ≤ 458865 }
{
    match message {
        Message::Notification { pw_status, fec, .. } => TLV_HEADER
            + 10
            + (status_size(*pw_status) + fec_told_size(fec)),
        Message::Hello { transport, .. } => TLV_HEADER + 4 + transport_size(transport),
        Message::Initialization { params, .. } => params_size(*params),
        Message::Address { octets, .. } => TLV_HEADER + 2 + octets.len(),
        Message::AddressWithdraw {
            addresses,
            fec,
            macs,
            ..
        } => withdrawal_size(addresses, fec, macs),
        Message::LabelMapping {
            fec,
            pw_status,
            points,
            ..
        } => {
            let front = TLV_HEADER + fec_size(fec);
            front + (TLV_HEADER + 4 + (status_size(*pw_status) + points_size(points)))
        }
        Message::LabelRequest { fec, .. } => TLV_HEADER + fec_size(fec),
        Message::LabelWithdraw { fec, label, .. } | Message::LabelRelease { fec, label, .. } =>
            TLV_HEADER + fec_size(fec) + label_size(*label),
        Message::LabelAbort { fec, .. } => TLV_HEADER + fec_size(fec) + (TLV_HEADER + 4),
        Message::KeepAlive { .. } | Message::Other { .. } | Message::Unprocessed { .. } => 0,
    }
}

/// The octets of a message as it is written, with its header (RFC 5036 section 3.5). The message can be written, and has
/// at most 65,535 octets of addresses and at most 65,535 MAC addresses.
pub fn message_size(message: &Message) -> usize
    requires writable { writable message.now ≡ true }
    requires few { address_octets message.now ≤ 65535 }
    requires few_macs { mac_count message.now ≤ 65535 }
    ensures size { result ≡ length (message_octets message.now) }
{
    MESSAGE_HEADER + tlvs_size(message)
}
