//! What is told of adjacencies.

use ldp_discovery::HELLO_SIZE;
use net_base::EdgeId;

/// What is told of adjacencies, between the entries of the network.
#[derive(Clone, Copy, Debug, PartialEq, Eq)]
pub enum Note {
    /// An edge said a Hello to another one. Hellos are numbered from 1.
    Hello {
        number: u64,
        from: EdgeId,
        to: EdgeId,
        bytes: [u8; HELLO_SIZE],
    },
    /// The edge's adjacency with a peer has come to live.
    Up {
        edge: EdgeId,
        peer: EdgeId,
    },
    /// It has ended.
    Down {
        edge: EdgeId,
        peer: EdgeId,
    },
    /// A connection was not opened, since an adjacency of the two edges does not live.
    Barred {
        from: EdgeId,
        to: EdgeId,
    },
    /// A line did not apply.
    Idle,
}
