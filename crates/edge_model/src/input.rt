//! What an edge takes.

use net_base::{CircuitId, EdgeId, WireId};

/// One thing that an edge takes. One that names a peer to which the edge is not joined, a circuit of another edge, or a
/// wire whose path lacks the edge, does not apply.
#[derive(Clone, Copy, Debug)]
pub enum Input<'a> {
    /// The edge's end of a connection with a peer stands.
    Connected { peer: EdgeId },
    /// Octets of LDP came from a peer.
    Octets { peer: EdgeId, bytes: &'a [u8] },
    /// The edge's end of the connection with a peer is lost.
    Lost { peer: EdgeId },
    /// The edge restarts.
    Restart,
    /// Time goes on by one tick.
    Tick,
    /// A customer's frame came by a circuit.
    Frame { circuit: CircuitId, bytes: &'a [u8] },
    /// A packet came from a neighbour.
    Packet { bytes: &'a [u8] },
    /// A wire is put on or off at this edge.
    Wire { wire: WireId, on: bool },
    /// A circuit is put on or off.
    Circuit { circuit: CircuitId, on: bool },
    /// The failure bits of a wire at this edge, 0 to 31 (RFC 8077 section 6.3.2, RFC 4446 section 3.5).
    Status { wire: WireId, bits: u8 },
    /// The priority of a spoke at its spoke edge.
    Priority { wire: WireId, priority: u8 },
    /// The far end of a wire is to be pinged (RFC 5085 section 5.2.1).
    Ping { wire: WireId },
}
