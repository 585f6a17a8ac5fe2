//! A Hello that was said.

use ldp_discovery::HELLO_SIZE;
use net_base::EdgeId;

/// A Hello that an edge said to another one: the octets of its PDU. It may be heard at any later time, and more than once.
#[derive(Clone, Copy, Debug, PartialEq, Eq)]
pub struct SaidHello {
    pub from: EdgeId,
    pub to: EdgeId,
    pub bytes: [u8; HELLO_SIZE],
}
