//! The known messages, by type, and the TLVs that each may have.
ghost use Rattle.std.specs.Prelude.{◌≡◌};
ghost use Rattle.ldp_grammar.specs.{Rows.{kind_of, type_of, part_of, row_of}, Layouts.{listed}};

use crate::message_type::{
    ADDRESS, ADDRESS_WITHDRAW, HELLO, INITIALIZATION, KEEP_ALIVE, LABEL_ABORT, LABEL_MAPPING,
    LABEL_RELEASE, LABEL_REQUEST, LABEL_WITHDRAW, NOTIFICATION,
};
use crate::tlv_type::{
    ADDRESS_LIST, CONFIGURATION_NUMBER, EXTENDED_STATUS, FEC, HELLO_PARAMETERS, HOP_COUNT, LABEL,
    MAC_LIST, PATH_VECTOR, PW_STATUS, REQUEST_ID, RETURNED_MESSAGE, RETURNED_PDU,
    SESSION_PARAMETERS, STATUS, SWITCHING_POINT, TRANSPORT_ADDRESS,
};
use crate::{TlvPart, field_of_type};
use net_values::Field;

/// A message type that is known (RFC 5036 section 3.5, RFC 8077).
#[derive(Clone, Copy, Debug, PartialEq, Eq)]
pub enum MessageKind {
    /// Notification (RFC 5036 section 3.5.1).
    Notification,
    /// Hello (RFC 5036 section 3.5.2).
    Hello,
    /// Initialization (RFC 5036 section 3.5.3).
    Initialization,
    /// KeepAlive (RFC 5036 section 3.5.4).
    KeepAlive,
    /// Address (RFC 5036 section 3.5.5).
    Address,
    /// Address Withdraw (RFC 5036 section 3.5.6).
    AddressWithdraw,
    /// Label Mapping (RFC 5036 section 3.5.7).
    LabelMapping,
    /// Label Request (RFC 5036 section 3.5.8).
    LabelRequest,
    /// Label Withdraw (RFC 5036 section 3.5.10).
    LabelWithdraw,
    /// Label Release (RFC 5036 section 3.5.11).
    LabelRelease,
    /// Label Abort Request (RFC 5036 section 3.5.9).
    LabelAbort,
}

impl MessageKind {
    /// The known message of a type, without its U bit; `None` exactly where the type is not known.
    pub fn of(number: u16) -> Option<MessageKind>
        ensures { result ≡ kind_of number }
    {
        match number {
            NOTIFICATION => Some(MessageKind::Notification),
            HELLO => Some(MessageKind::Hello),
            INITIALIZATION => Some(MessageKind::Initialization),
            KEEP_ALIVE => Some(MessageKind::KeepAlive),
            ADDRESS => Some(MessageKind::Address),
            ADDRESS_WITHDRAW => Some(MessageKind::AddressWithdraw),
            LABEL_MAPPING => Some(MessageKind::LabelMapping),
            LABEL_REQUEST => Some(MessageKind::LabelRequest),
            LABEL_WITHDRAW => Some(MessageKind::LabelWithdraw),
            LABEL_RELEASE => Some(MessageKind::LabelRelease),
            LABEL_ABORT => Some(MessageKind::LabelAbort),
            _ => None,
        }
    }

    /// The type, without U bit.
    pub fn number(self) -> u16
        ensures { result ≡ type_of self }
    {
        match self {
            MessageKind::Notification => NOTIFICATION,
            MessageKind::Hello => HELLO,
            MessageKind::Initialization => INITIALIZATION,
            MessageKind::KeepAlive => KEEP_ALIVE,
            MessageKind::Address => ADDRESS,
            MessageKind::AddressWithdraw => ADDRESS_WITHDRAW,
            MessageKind::LabelMapping => LABEL_MAPPING,
            MessageKind::LabelRequest => LABEL_REQUEST,
            MessageKind::LabelWithdraw => LABEL_WITHDRAW,
            MessageKind::LabelRelease => LABEL_RELEASE,
            MessageKind::LabelAbort => LABEL_ABORT,
        }
    }

    /// What a TLV of a type, without U and F bit, is to the message.
    pub fn part(self, tlv: u16) -> TlvPart
        ensures { result ≡ part_of (row_of self) tlv }
    {
        match (self, tlv) {
            (MessageKind::Notification, STATUS) => TlvPart::Needed,
            (MessageKind::Notification, PW_STATUS | FEC) => TlvPart::Further,
            (MessageKind::Notification, EXTENDED_STATUS | RETURNED_PDU | RETURNED_MESSAGE) =>
                TlvPart::PassedOver,
            (MessageKind::Hello, HELLO_PARAMETERS) => TlvPart::Needed,
            (MessageKind::Hello, TRANSPORT_ADDRESS) => TlvPart::Further,
            (MessageKind::Hello, CONFIGURATION_NUMBER) => TlvPart::PassedOver,
            (MessageKind::Initialization, SESSION_PARAMETERS) => TlvPart::Needed,
            (MessageKind::Initialization, _) => TlvPart::PassedOver,
            (MessageKind::Address | MessageKind::AddressWithdraw, ADDRESS_LIST) => TlvPart::Needed,
            (MessageKind::AddressWithdraw, FEC | MAC_LIST) => TlvPart::Further,
            (MessageKind::LabelMapping, FEC | LABEL) => TlvPart::Needed,
            (MessageKind::LabelMapping, PW_STATUS | SWITCHING_POINT) => TlvPart::Further,
            (MessageKind::LabelMapping, HOP_COUNT | PATH_VECTOR | REQUEST_ID) =>
                TlvPart::PassedOver,
            (MessageKind::LabelRequest, FEC) => TlvPart::Needed,
            (MessageKind::LabelRequest, HOP_COUNT | PATH_VECTOR) => TlvPart::PassedOver,
            (MessageKind::LabelWithdraw | MessageKind::LabelRelease, FEC) => TlvPart::Needed,
            (MessageKind::LabelWithdraw | MessageKind::LabelRelease, LABEL) => TlvPart::Further,
            (MessageKind::LabelRelease, STATUS) => TlvPart::Further,
            (MessageKind::LabelAbort, FEC | REQUEST_ID) => TlvPart::Needed,
            _ => TlvPart::Unknown,
        }
    }

    /// The TLV of a type, without U and F bit, where the message needs it or may have it; `None` exactly where it is
    /// passed over or unknown there.
    pub fn listed(self, tlv: u16) -> Option<Field>
        ensures { result ≡ listed (row_of self) tlv }
    {
        match self.part(tlv) {
            TlvPart::Needed | TlvPart::Further => field_of_type(tlv),
            TlvPart::PassedOver | TlvPart::Unknown => None,
        }
    }

    /// The types of the TLVs that the message needs, in the order in which they are written.
    pub fn needed(self) -> &'static [u16]
        ensures { result.now ≡ (row_of self).needed }
    {
        match self {
            MessageKind::Notification => &[STATUS],
            MessageKind::Hello => &[HELLO_PARAMETERS],
            MessageKind::Initialization => &[SESSION_PARAMETERS],
            MessageKind::KeepAlive => &[],
            MessageKind::Address | MessageKind::AddressWithdraw => &[ADDRESS_LIST],
            MessageKind::LabelMapping => &[FEC, LABEL],
            MessageKind::LabelRequest => &[FEC],
            MessageKind::LabelWithdraw | MessageKind::LabelRelease => &[FEC],
            MessageKind::LabelAbort => &[FEC, REQUEST_ID],
        }
    }

    /// The types of the TLVs that all together may stand instead of the needed ones; empty where none may (RFC 4762
    /// section 6.2).
    pub fn instead(self) -> &'static [u16]
        ensures { result.now ≡ (row_of self).instead }
    {
        match self {
            MessageKind::AddressWithdraw => &[FEC, MAC_LIST],
            _ => &[],
        }
    }
}
