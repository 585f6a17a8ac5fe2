//! The parts of a message, each with a blank before it.
ghost use Rattle.std.specs.Prelude.{◌≡◌, ◌++◌, ◌∷◌, [], codes, OnOk};
ghost use Rattle.text_pieces.specs.Pieces.{spaced};
ghost use Rattle.message_text.specs.Words.{addresses_word, fec_words, hello_word, label_word, label_words, macs_words, part_words, point_words, pw_status_words, request_word, session_word, status_word, told_fec_words, transport_words, type_word, why_word, withdrawn_words};

use crate::names::field_text;
use crate::pieces::{bit, put_address, put_id, put_told, put_told_numbers};
use crate::pseudowire::{
    put_fec, put_macs, put_points, put_pw_status, put_told_fec, put_told_label,
};
use ldp_grammar::{AddressList, Message, SessionParams, StatusCode, Why};
use net_values::{Addr, Label, List, Mac, NoMemory, Octets};
use pw_tlvs::{Points, PwFec, PwStatus};
use text_pieces::{put_digits, put_text, put_word};

// Adds a status.
fn put_status(text: &mut Vec<u8>, status: StatusCode) -> Result<(), NoMemory>
    ensures { OnOk result (text.new.items ≡ text.old.items ++ (codes " " ++ status_word status)) }
{
    put_told_numbers(
        text,
        b"code=",
        bit(status.fatal),
        &[
            bit(status.forward),
            status.code,
            status.message,
            u32::from(status.kind),
        ],
    )
}

// Adds the hold time, the T bit and the R bit of a Hello.
fn put_hello(text: &mut Vec<u8>, hold: u16, targeted: bool, request: bool) -> Result<(), NoMemory>
    ensures { OnOk result (text.new.items ≡ text.old.items ++ (codes " " ++ hello_word hold targeted request)) }
{
    put_told_numbers(
        text,
        b"hold=",
        u32::from(hold),
        &[bit(targeted), bit(request)],
    )
}

// Adds the transport address, where there is one.
fn put_transport(text: &mut Vec<u8>, transport: &Option<Addr>) -> Result<(), NoMemory>
    ensures { OnOk result (text.new.items ≡ text.old.items ++ spaced (transport_words transport.now)) }
{
    match transport {
        Some(address) => {
            put_text(text, b" transport=")?;
            put_address(text, *address)
        }
        None => Ok(()),
    }
}

// Adds what an Initialization proposes.
fn put_session(text: &mut Vec<u8>, params: SessionParams) -> Result<(), NoMemory>
    ensures { OnOk result (text.new.items ≡ text.old.items ++ spaced (session_word params ∷ [])) }
{
    put_told_numbers(
        text,
        b"session=",
        u32::from(params.version),
        &[
            u32::from(params.keepalive),
            bit(params.demand),
            bit(params.loops),
            u32::from(params.limit),
            u32::from(params.max_pdu),
        ],
    )?;
    put_id(text, params.receiver)
}

// Adds an address family and addresses.
fn put_addresses(text: &mut Vec<u8>, family: u16, octets: &Octets) -> Result<(), NoMemory>
    ensures { OnOk result (text.new.items ≡ text.old.items ++ spaced (addresses_word family octets.now ∷ [])) }
{
    put_told(text, b"addresses=", u64::from(family))?;
    text.push(b'/')?;
    put_digits(text, octets.as_slice())
}

// Adds the addresses that are withdrawn, where there are any.
fn put_withdrawn(text: &mut Vec<u8>, addresses: &Option<AddressList>) -> Result<(), NoMemory>
    ensures { OnOk result (text.new.items ≡ text.old.items ++ spaced (withdrawn_words addresses.now)) }
{
    match addresses {
        Some(list) => put_addresses(text, list.family, &list.octets),
        None => Ok(()),
    }
}

// Adds the type of a message that is not known or not processed.
fn put_type(text: &mut Vec<u8>, kind: u16) -> Result<(), NoMemory>
    ensures { OnOk result (text.new.items ≡ text.old.items ++ spaced (type_word kind ∷ [])) }
{
    put_told(text, b"type=", u64::from(kind))
}

// Adds why a message is not processed.
fn put_why(text: &mut Vec<u8>, why: Why) -> Result<(), NoMemory>
    ensures { OnOk result (text.new.items ≡ text.old.items ++ spaced (why_word why ∷ [])) }
{
    match why {
        Why::UnknownTlv(kind) => put_told(text, b"why=UnknownTlv:", u64::from(kind)),
        Why::Missing(field) => {
            put_word(text, b"why=Missing:")?;
            put_text(text, field_text(field).as_bytes())
        }
        Why::UnknownFec(octet) => put_told(text, b"why=UnknownFec:", u64::from(octet)),
    }
}

// Adds the parts of a Notification behind its status.
fn put_notified(
    text: &mut Vec<u8>,
    fec: &Option<PwFec>,
    pw_status: Option<PwStatus>,
) -> Result<(), NoMemory>
    ensures { OnOk result (text.new.items ≡ text.old.items ++ spaced (told_fec_words fec.now ++ pw_status_words pw_status)) }
{
    put_told_fec(text, fec)?;
    put_pw_status(text, pw_status)
}

// Adds the parts of an Address Withdraw.
fn put_withdrawal(
    text: &mut Vec<u8>,
    addresses: &Option<AddressList>,
    fec: &Option<PwFec>,
    macs: &Option<List<Mac>>,
) -> Result<(), NoMemory>
    ensures { OnOk result (text.new.items ≡ text.old.items ++ spaced ((withdrawn_words addresses.now ++ told_fec_words fec.now) ++ macs_words macs.now)) }
{
    put_withdrawn(text, addresses)?;
    put_told_fec(text, fec)?;
    put_macs(text, macs)
}

// Adds the FEC of a binding, and the label where it is told.
fn put_binding(text: &mut Vec<u8>, fec: &PwFec, label: Option<Label>) -> Result<(), NoMemory>
    ensures { OnOk result (text.new.items ≡ text.old.items ++ spaced (fec_words fec.now ++ label_words label)) }
{
    put_fec(text, fec)?;
    put_told_label(text, label)
}

// Adds the parts of a Label Mapping.
fn put_mapping(
    text: &mut Vec<u8>,
    fec: &PwFec,
    label: Label,
    pw_status: Option<PwStatus>,
    points: &Points,
) -> Result<(), NoMemory>
    ensures { OnOk result (text.new.items ≡ text.old.items ++ spaced (((fec_words fec.now ++ (label_word label ∷ [])) ++ pw_status_words pw_status) ++ point_words points.now)) }
{
    put_binding(text, fec, Some(label))?;
    put_pw_status(text, pw_status)?;
    put_points(text, points)
}

// Adds the parts of a Label Abort Request.
fn put_abort(text: &mut Vec<u8>, fec: &PwFec, request: u32) -> Result<(), NoMemory>
    ensures { OnOk result (text.new.items ≡ text.old.items ++ spaced (fec_words fec.now ++ (request_word request ∷ []))) }
{
    put_fec(text, fec)?;
    put_told(text, b"request=", u64::from(request))
}

/// Adds the parts of a message.
pub fn put_parts(text: &mut Vec<u8>, message: &Message) -> Result<(), NoMemory>
    ensures { OnOk result (text.new.items ≡ text.old.items ++ spaced (part_words message.now)) }
{
    match *message {
        Message::Notification {
            status,
            pw_status,
            ref fec,
            ..
        } => {
            put_status(text, status)?;
            put_notified(text, fec, pw_status)
        }
        Message::Hello {
            hold,
            targeted,
            request,
            ref transport,
            ..
        } => {
            put_hello(text, hold, targeted, request)?;
            put_transport(text, transport)
        }
        Message::Initialization { params, .. } => put_session(text, params),
        Message::KeepAlive { .. } => Ok(()),
        Message::Address {
            family,
            ref octets,
            ..
        } => put_addresses(text, family, octets),
        Message::AddressWithdraw {
            ref addresses,
            ref fec,
            ref macs,
            ..
        } => put_withdrawal(text, addresses, fec, macs),
        Message::LabelMapping {
            ref fec,
            label,
            pw_status,
            ref points,
            ..
        } => put_mapping(text, fec, label, pw_status, points),
        Message::LabelRequest { ref fec, .. } => put_fec(text, fec),
        Message::LabelWithdraw { ref fec, label, .. }
        | Message::LabelRelease { ref fec, label, .. } => { put_binding(text, fec, label) }
        Message::LabelAbort {
            ref fec,
            request,
            ..
        } => put_abort(text, fec, request),
        Message::Other { kind, .. } => put_type(text, kind),
        Message::Unprocessed { kind, why, .. } => {
            put_type(text, kind)?;
            put_why(text, why)
        }
    }
}
