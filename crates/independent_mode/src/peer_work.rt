//! What an edge works with for a peer.

use net_base::EdgeId;
use std::alloc::Global;

/// A peer, and where memory is taken from.
#[derive(Clone, Copy)]
pub(crate) struct PeerWork {
    pub(crate) peer: EdgeId,
    pub(crate) alloc: Global,
}
