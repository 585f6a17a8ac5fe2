//! What is told of a line of a script.

use net_base::{EdgeId, Octets, WireId};

/// What a line of a script has made of the network, one thing after another.
#[derive(Debug, Drop)]
pub enum SwitchEntry {
    /// An edge has put octets to a peer.
    Said {
        edge: EdgeId,
        peer: EdgeId,
        octets: Octets,
    },
    /// An edge uses a wire from now on, or no more.
    Uses {
        edge: EdgeId,
        wire: WireId,
        on: bool,
    },
    /// The line does not apply.
    Idle,
}
