//! LDP Identifiers.

use net_values::Addr;

/// An LDP Identifier: whose label space a PDU speaks of (RFC 5036 section 2.2.2).
#[derive(Clone, Copy, Debug, PartialEq, Eq)]
pub struct LdpId {
    /// The router ID of the sender.
    pub router: Addr,
    /// The label space at that router; 0 is the platform's.
    pub space: u16,
}
