//! Messages.
ghost use Rattle.std.specs.Prelude.{◌≡◌};
ghost use Rattle.ldp_grammar.specs.Written.{id_of, written_type};

use crate::{AddressList, MessageKind, SessionParams, StatusCode, Why};
use net_values::{Addr, Label, List, Mac, Octets};
use pw_tlvs::{Points, PwFec, PwStatus};

/// One LDP message (RFC 5036 section 3.5). `id` is its Message ID.
#[derive(Debug, Drop)]
pub enum Message {
    /// Tells an event or an error (section 3.5.1); of a pseudowire its status, and which one it is (RFC 8077 section
    /// 6.3.2).
    Notification {
        id: u32,
        status: StatusCode,
        pw_status: Option<PwStatus>,
        fec: Option<PwFec>,
    },
    /// Tells that its sender is there (section 3.5.2): the hold time in seconds, the T bit, the R bit, and the
    /// transport address where it is told.
    Hello {
        id: u32,
        hold: u16,
        targeted: bool,
        request: bool,
        transport: Option<Addr>,
    },
    /// Proposes the parameters of a session (section 3.5.3).
    Initialization {
        id: u32,
        params: SessionParams,
    },
    /// Keeps a session alive (section 3.5.4).
    KeepAlive {
        id: u32,
    },
    /// Tells addresses of interfaces (section 3.5.5): the address family and the addresses' octets.
    Address {
        id: u32,
        family: u16,
        octets: Octets,
    },
    /// Withdraws addresses (section 3.5.6), or the MAC addresses that were learned on a pseudowire (RFC 4762 section
    /// 6.2): the list has those that the receiver forgets; an empty one has it forget all of the service but those that
    /// it learned over the pseudowire by which this came.
    AddressWithdraw {
        id: u32,
        addresses: Option<AddressList>,
        fec: Option<PwFec>,
        macs: Option<List<Mac>>,
    },
    /// Binds a label to a pseudowire (section 3.5.7, RFC 8077 section 6), whose FEC has a PW ID: with its status where
    /// it is told (RFC 8077 section 6.3.3), and the switching points that it passed (RFC 6073 section 7.4).
    LabelMapping {
        id: u32,
        fec: PwFec,
        label: Label,
        pw_status: Option<PwStatus>,
        points: Points,
    },
    /// Asks for a label (section 3.5.8).
    LabelRequest {
        id: u32,
        fec: PwFec,
    },
    /// Withdraws a binding (section 3.5.10): that of the label, or all of the FEC.
    LabelWithdraw {
        id: u32,
        fec: PwFec,
        label: Option<Label>,
    },
    /// Gives a label back (section 3.5.11): the label, or all of the FEC. A status there is not kept.
    LabelRelease {
        id: u32,
        fec: PwFec,
        label: Option<Label>,
    },
    /// Takes the request with this Message ID back (section 3.5.9).
    LabelAbort {
        id: u32,
        fec: PwFec,
        request: u32,
    },
    /// A message of another type, with its U bit and type. Its parameters are not looked at.
    Other {
        id: u32,
        u: bool,
        kind: u16,
    },
    /// A message of a known type that is not processed, with its type.
    Unprocessed {
        id: u32,
        kind: u16,
        why: Why,
    },
}

impl Message {
    /// The Message ID.
    pub fn id(&self) -> u32
        ensures { result ≡ id_of self.now }
    {
        match self {
            Message::Notification { id, .. }
            | Message::Hello { id, .. }
            | Message::Initialization { id, .. }
            | Message::KeepAlive { id }
            | Message::Address { id, .. }
            | Message::AddressWithdraw { id, .. }
            | Message::LabelMapping { id, .. }
            | Message::LabelRequest { id, .. }
            | Message::LabelWithdraw { id, .. }
            | Message::LabelRelease { id, .. }
            | Message::LabelAbort { id, .. }
            | Message::Other { id, .. }
            | Message::Unprocessed { id, .. } => *id,
        }
    }

    /// The Message Type, without the U bit.
    pub fn message_type(&self) -> u16
        ensures { result ≡ written_type self.now }
    {
        match self {
            Message::Notification { .. } => MessageKind::Notification.number(),
            Message::Hello { .. } => MessageKind::Hello.number(),
            Message::Initialization { .. } => MessageKind::Initialization.number(),
            Message::KeepAlive { .. } => MessageKind::KeepAlive.number(),
            Message::Address { .. } => MessageKind::Address.number(),
            Message::AddressWithdraw { .. } => MessageKind::AddressWithdraw.number(),
            Message::LabelMapping { .. } => MessageKind::LabelMapping.number(),
            Message::LabelRequest { .. } => MessageKind::LabelRequest.number(),
            Message::LabelWithdraw { .. } => MessageKind::LabelWithdraw.number(),
            Message::LabelRelease { .. } => MessageKind::LabelRelease.number(),
            Message::LabelAbort { .. } => MessageKind::LabelAbort.number(),
            Message::Other { kind, .. } | Message::Unprocessed { kind, .. } => *kind,
        }
    }
}
