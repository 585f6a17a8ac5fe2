//! What an echo packet says.

use net_base::Addr;

/// An echo request or its answer (RFC 792).
#[derive(Clone, Copy, Debug, PartialEq, Eq)]
pub enum Echo {
    /// A request from one address to another. `length` is the IPv4 total length in octets, 28 to 1,500.
    Request {
        from: Addr,
        to: Addr,
        sequence: u16,
        length: u16,
    },
    /// The answer to the request with this sequence number.
    Answer {
        sequence: u16,
    },
}
