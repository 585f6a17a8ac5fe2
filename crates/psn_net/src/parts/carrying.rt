//! Which wires carry frames.
ghost use Rattle.std.specs.{Prelude.{◌≡◌, ◌<◌, Some, true, length, slice_get, IfSome}, List.{list_all}};
ghost use Rattle.net_base.specs.{plan.Accepted.{IsChecked}, plan.RowFaults.{is_edge_of}};
ghost use Rattle.edge_model.specs.Ends.{end_forwards, is_stitched, is_up};
ghost use Rattle.provider_edge.specs.Lists.{seen as seen_edge};
ghost use Rattle.network_model.specs.{Calm.{carries, inner_stitched, is_joined_up}, State.{edge_at}};
ghost use Rattle.psn_net.specs.{Carrying.{forwards_if}, Lists.{network_seen}};

use crate::parts::Parts;
use hvpls_spokes::is_terminal;
use net_base::{Down, EdgeId, WireId, WirePlan, first_of, last_of};
use provider_edge::Edge;

impl Parts {
    /// The wire with this row forwards at both of its terminal edges, and is stitched between them (RFC 6073 section 4).
    #[tactic(auto, using(crate::proofs::CarryingLemmas::first_of_plan, crate::proofs::CarryingLemmas::last_of_plan, crate::proofs::CarryingLemmas::first_forwards_is, crate::proofs::CarryingLemmas::last_forwards_is))]
    pub fn carries(&self, wire: WireId, row: &WirePlan) -> bool
        requires checked { IsChecked self.now.plan }
        requires row { slice_get self.now.plan.wires wire.0 ≡ Some row.now }
        ensures { result ≡ carries self.now.plan (network_seen self.now) wire.0 row.now }
    {
        let path = row.path.as_slice();
        (self.forwards(first_of(path), wire, row) && self.forwards(last_of(path), wire, row))
            && self.is_joined_up(wire, row)
    }

    // The path has an edge, and each of its switching points is stitched.
    #[tactic(auto, using(crate::proofs::CarryingLemmas::rest_within))]
    fn is_joined_up(&self, wire: WireId, row: &WirePlan) -> bool
        requires checked { IsChecked self.now.plan }
        requires row { slice_get self.now.plan.wires wire.0 ≡ Some row.now }
        ensures { result ≡ is_joined_up self.now.plan (network_seen self.now) wire.0 row.now.path }
    {
        match row.path.as_slice() {
            [_first, rest @ ..] => self.are_stitched(wire, rest),
            [] => false,
        }
    }

    // Each of these edges but the last one is stitched.
    #[tactic(auto, using(crate::proofs::CarryingLemmas::stitching_steps))]
    fn are_stitched(&self, wire: WireId, path: &[EdgeId]) -> bool
        requires { list_all (is_edge_of self.now.plan) path.now ≡ true }
        ensures { result ≡ inner_stitched self.now.plan (network_seen self.now) wire.0 path.now }
    {
        let points = path.len().saturating_sub(1);
        for place in 0..points {
            if !self.is_stitched(path[place], wire) {
                return false;
            }
        }
        true
    }

    // Each end that an edge has of the wire advertises its label and is bound.
    fn is_stitched(&self, edge: EdgeId, wire: WireId) -> bool
        requires { edge.0 < length self.now.plan.edges }
        ensures { result ≡ is_stitched self.now.plan (edge_at (network_seen self.now) edge) wire }
    {
        self.edge_at(edge).is_stitched(wire)
    }

    // A terminal edge of the wire, where its path has one, forwards.
    fn forwards(&self, terminal: Option<EdgeId>, wire: WireId, row: &WirePlan) -> bool
        requires checked { IsChecked self.now.plan }
        requires row { slice_get self.now.plan.wires wire.0 ≡ Some row.now }
        requires within { IfSome terminal (λ edge. edge.0 < length self.now.plan.edges) }
        ensures { result ≡ forwards_if self.now.plan (network_seen self.now) wire.0 terminal }
    {
        match terminal {
            Some(edge) => end_forwards(self.edge_at(edge), wire, row),
            None => false,
        }
    }

    // The edge with this place, over the plan of the network.
    #[tactic(auto, unfolding(crate::specs::Lists::network_seen))]
    pub(crate) fn edge_at(&self, edge: EdgeId) -> &Edge
        requires { edge.0 < length self.now.plan.edges }
        ensures plan { result.now.plan ≡ self.now.plan }
        ensures state { seen_edge result.now ≡ edge_at (network_seen self.now) edge }
    {
        &self.edges[edge.0 as usize]
    }
}

// The edge's terminal end of the wire forwards.
#[tactic(auto, using(crate::proofs::CarryingLemmas::forwarding_steps))]
fn end_forwards(edge: &Edge, wire: WireId, row: &WirePlan) -> bool
    requires checked { IsChecked edge.now.plan }
    requires row { slice_get edge.now.plan.wires wire.0 ≡ Some row.now }
    ensures { result ≡ end_forwards edge.now.plan (seen_edge edge.now) wire }
{
    if !is_terminal(row.path.as_slice(), edge.me()) {
        return false;
    }
    is_up(edge.down(wire))
}

// Nothing keeps an end from forwarding.
fn is_up(down: Option<Down>) -> bool
    ensures { result ≡ is_up down }
{
    down.is_none()
}
