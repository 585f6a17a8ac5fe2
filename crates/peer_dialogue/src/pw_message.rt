//! What an edge puts about a pseudowire.
ghost use Rattle.std.specs.Prelude.{◌≡◌, ◌≤◌, ◌+◌, true, length, IfOk};
ghost use Rattle.ldp_grammar.specs.Written.{message_octets, writable};
ghost use Rattle.peer_dialogue.specs.PwMessage.{CanBeSaid, numbered};

use ldp_grammar::Message;
use net_base::{Label, List, Mac, NoMemory};
use pw_messages::{mac_withdrawal, mapping, release, status_notification, withdrawal};
use pw_signalling::Told;
use pw_tlvs::{PwFec, PwStatus};
use std::alloc::Global;

/// A message about a pseudowire, without its Message ID (RFC 8077 section 6).
#[derive(Clone, Copy)]
pub enum PwMessage<'a> {
    /// A Label Mapping: the label is bound to the pseudowire with this content (RFC 5036 section 3.5.7).
    Mapping {
        pw_id: u32,
        label: Label,
        told: Told,
    },
    /// A Label Withdraw of a label that was advertised with this content (RFC 5036 section 3.5.10).
    Withdrawal {
        pw_id: u32,
        label: Label,
        told: Told,
    },
    /// A Label Release of what came with this FEC and label (RFC 5036 section 3.5.11).
    Release {
        fec: PwFec,
        label: Option<Label>,
    },
    /// A Notification of the status of a pseudowire that was advertised with this content (RFC 8077 section 6.3.2).
    Status {
        pw_id: u32,
        status: PwStatus,
        told: Told,
    },
    /// A MAC withdraw of at most 30 addresses on a pseudowire that was advertised with this content (RFC 4762 section 6.2).
    MacWithdrawal {
        pw_id: u32,
        addresses: &'a [Mac],
        told: Told,
    },
}

impl PwMessage<'_> {
    /// The message with this Message ID, where its PW type has 15 bits, the VLAN ID of a mapping has 12, and a MAC withdraw names
    /// at most 30 addresses. It can be written, and a PDU with it alone has a PDU Length of at most 256.
    pub fn with_id(&self, alloc: Global, id: u32) -> Result<Message, NoMemory>
        requires { CanBeSaid self.now }
        ensures message { IfOk result (λ message. message ≡ numbered self.now id) }
        ensures writable { IfOk result (λ message. writable message ≡ true) }
        ensures short { IfOk result (λ message. 6 + length (message_octets message) ≤ 256) }
    {
        match self {
            PwMessage::Mapping { pw_id, label, told } => Ok(mapping(*pw_id, *label, told, id)),
            PwMessage::Withdrawal { pw_id, label, told } => {
                Ok(withdrawal(*pw_id, *label, told, id))
            }
            PwMessage::Release { fec, label } => Ok(release(fec, *label, id)),
            PwMessage::Status {
                pw_id,
                status,
                told,
            } => Ok(status_notification(*pw_id, *status, told, id)),
            PwMessage::MacWithdrawal {
                pw_id,
                addresses,
                told,
            } => {
                let mut list = List::new(alloc);
                list.extend_from_slice(addresses)?;
                Ok(mac_withdrawal(*pw_id, list, told, id))
            }
        }
    }
}
