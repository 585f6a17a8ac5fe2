//! PDUs.

use crate::{LdpId, Message};
use net_values::List;

/// One protocol data unit: a sender and its messages (RFC 5036 section 3.1).
#[derive(Debug, Drop)]
pub struct Pdu {
    /// The sender.
    pub id: LdpId,
    /// The messages in order; at least one.
    pub messages: List<Message>,
}
