//! Switching points.

use net_values::Addr;

/// What a Switching Point PE TLV tells (RFC 6073 section 7.4).
#[derive(Clone, Copy, Debug, PartialEq, Eq)]
pub struct Point {
    /// The PW ID of the last segment that the pseudowire passed, where it is told.
    pub pw_id: Option<u32>,
    /// The address of the switching point, where it is told.
    pub local: Option<Addr>,
    /// The address of the edge from which the switching point had the pseudowire, where it is told.
    pub remote: Option<Addr>,
}
