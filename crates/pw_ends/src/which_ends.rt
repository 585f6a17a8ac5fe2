//! Which ends are meant.
ghost use Rattle.std.specs.Prelude.{◌≡◌};
ghost use Rattle.pw_ends.specs.Changes.{is_meant};

use edge_model::EndPlace;
use net_base::{EdgeId, WireId};

/// The ends that a change is about.
#[derive(Clone, Copy)]
pub enum WhichEnds {
    /// Each end beside this peer.
    Beside(EdgeId),
    /// Each end of this wire.
    OfWire(WireId),
    /// Each end.
    All,
}

impl WhichEnds {
    // Whether the end at a place is meant.
    pub(crate) fn has(self, place: &EndPlace) -> bool
        ensures { result ≡ is_meant self place.now }
    {
        match self {
            WhichEnds::Beside(peer) => place.peer == peer,
            WhichEnds::OfWire(wire) => place.wire == wire,
            WhichEnds::All => true,
        }
    }
}
