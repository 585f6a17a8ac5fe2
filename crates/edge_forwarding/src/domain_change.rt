//! What may change of a bridged domain.

use hvpls_spokes::PortName;
use net_base::{List, Mac};

/// A change of a bridged domain.
#[derive(Clone, Copy)]
pub enum DomainChange<'a> {
    /// The port forwards, or forwards no more.
    Turn { port: PortName, on: bool },
    /// The bridge forgets what it learned at the port.
    Forget { port: PortName },
    /// The bridge forgets what a MAC withdraw by a port names (RFC 4762 section 6.2).
    Withdraw { from: u16, addresses: &'a List<Mac> },
    /// No wire's port forwards.
    Close,
    /// The bridge forgets all that it has learned.
    Clear,
    /// The bridge forgets what it has not heard for as long as its age limit, at the tick `now`.
    Age { now: u64 },
}
