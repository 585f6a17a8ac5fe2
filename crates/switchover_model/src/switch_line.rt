//! A line of a script.

use net_base::{EdgeId, WireId};
use status_exchange::Wish;

/// What a line of a script has the network of edges in independent mode do.
#[derive(Clone, Copy, Debug, PartialEq, Eq)]
pub enum SwitchLine {
    /// Both edges are connected, the first one first.
    Connect {
        edge: EdgeId,
        peer: EdgeId,
    },
    /// Both lose the connection, the first one first, and all octets on their way are lost.
    Cut {
        edge: EdgeId,
        peer: EdgeId,
    },
    /// The first `count` octets on their way from an edge come to another one, or all where there are fewer.
    Deliver {
        from: EdgeId,
        to: EdgeId,
        count: u16,
    },
    /// So many times at most all octets come of the first pair of edges between which some are on their way, in plan order.
    Settle {
        count: u16,
    },
    /// An edge calls a wire something else.
    Set {
        edge: EdgeId,
        wire: WireId,
        wish: Wish,
    },
}
