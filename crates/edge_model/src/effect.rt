//! What an edge gives out.

use net_base::{Arrival, CircuitId, Down, DropCause, EdgeId, Octets, StateName, WireId};

/// One thing that an edge gives out on an input.
#[derive(Debug, Drop)]
pub enum Effect {
    /// The link took octets of LDP towards a peer.
    Said {
        peer: EdgeId,
        bytes: Octets,
    },
    /// The link took a packet towards a neighbour on a wire.
    Sent {
        peer: EdgeId,
        wire: WireId,
        arrival: Arrival,
        bytes: Octets,
    },
    /// A frame left at a circuit.
    Left {
        circuit: CircuitId,
        bytes: Octets,
    },
    /// A frame or a packet was dropped.
    Dropped(DropCause),
    /// The session with a peer moved to a state.
    Session {
        peer: EdgeId,
        state: StateName,
    },
    /// A wire's end began to forward, or stopped for the cause that is told.
    Wire {
        wire: WireId,
        down: Option<Down>,
    },
    /// The answer to a ping came back.
    Pong {
        wire: WireId,
        sequence: u16,
    },
    /// The edge's end of the connection with a peer is gone.
    Closed {
        peer: EdgeId,
    },
}
