//! Adjacencies that ended.
ghost use Rattle.std.specs.Prelude.{◌≡◌, slice_index_or, false};

use net_base::EdgeId;
use std::marker::Model;

/// The most edges of a plan.
pub const MOST_EDGES: usize = 64;

/// The adjacencies that ended by one tick. Contracts see a truth value for each place of a plan.
#[derive(Clone, Copy, Debug)]
pub struct Lapsed {
    pub(crate) ended: [bool; MOST_EDGES],
}

impl Model for Lapsed {
    ghost use Rattle.std.specs.Prelude.{List, Bool};

    ghost Value = { List Bool };

    ghost view = { λ l. l.ended };

    ghost inverse = { λ ended. record { ended = ended } };
}

impl Lapsed {
    /// Whether the adjacency with this peer ended.
    pub fn contains(&self, peer: EdgeId) -> bool
        ensures { result ≡ slice_index_or self.now peer.0 false }
    {
        match self.ended.get(peer.0 as usize) {
            Some(ended) => *ended,
            None => false,
        }
    }
}
