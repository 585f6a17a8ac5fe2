//! Whether an edge passes the packets of a wire on, both ways (RFC 6073 section 4).
ghost use Rattle.std.specs.Prelude.{◌≡◌, ◌<◌, length};
ghost use Rattle.pw_signalling.specs.AnyEnd.{end_of};
ghost use Rattle.pw_stitch.specs.Stitch.{has_told};
ghost use Rattle.pw_ends.specs.Ends.{place_of};
ghost use Rattle.edge_model.specs.Ends.{is_joined_place, is_stitched};
ghost use Rattle.provider_edge.specs.Lists.{seen};

use crate::Edge;
use net_base::WireId;
use pw_signalling::PwEnd;

impl Edge {
    /// Whether each end that the edge has of a wire advertises its label and is bound. At a switching point of the wire both sides
    /// then do, and packets go through both ways (RFC 6073 section 4). It is so of a wire that does not pass the edge.
    #[tactic(auto, using(crate::proofs::StitchLemmas::stitch_steps))]
    pub fn is_stitched(&self, wire: WireId) -> bool
        ensures { result ≡ is_stitched self.now.plan (seen self.now) wire }
    {
        for slot in 0..self.ends.len() {
            if !self.is_joined_slot(wire, slot) {
                return false;
            }
        }
        true
    }

    // The end of a slot is of another wire, or advertises its label and is bound.
    #[tactic(auto, unfolding(crate::specs::Lists::seen))]
    fn is_joined_slot(&self, wire: WireId, slot: usize) -> bool
        requires { slot < length self.now.ends.places }
        ensures { result ≡ is_joined_place (seen self.now) wire (place_of self.now.ends slot) }
    {
        let end = self.end_in(slot);
        self.place_at(slot).wire != wire || (has_told(end) && end.remote().is_some())
    }
}

// The end advertises its label.
pub(crate) fn has_told(end: &PwEnd) -> bool
    ensures { result ≡ has_told (end_of end.now).local }
{
    matches!(end, PwEnd::Advertised(_))
}
