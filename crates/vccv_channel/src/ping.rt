//! Pings.

use net_base::Addr;

/// What an edge asks in an echo request (RFC 792).
#[derive(Clone, Copy, Debug, PartialEq, Eq)]
pub struct Ping {
    /// The address of the edge that asks.
    pub from: Addr,
    /// The address of the far edge of the pseudowire.
    pub to: Addr,
    /// The identifier: the PW ID modulo 65,536.
    pub number: u16,
    /// The sequence number of this ping.
    pub sequence: u16,
}
