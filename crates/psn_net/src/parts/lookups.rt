//! What stands, and what may be delivered.
ghost use Rattle.std.specs.Prelude.{◌≡◌, ◌==◌, ◌<◌, ◌≤◌, ◌&&◌, ◌||◌, not, true, false, length, IfSome};
ghost use Rattle.net_base.specs.plan.Accepted.{IsChecked};
ghost use Rattle.network_model.specs.{Connection.{can_connect, is_deliverable, is_drained_pipe}, Delivery.{first_from, first_pair}};
ghost use Rattle.network_model.specs.State.{stands};
ghost use Rattle.psn_net.specs.Lists.{network_seen};

use crate::parts::Parts;
use net_base::EdgeId;

impl Parts {
    /// How many edges the plan has.
    pub fn count(&self) -> usize
        ensures count { result ≡ length self.now.plan.edges }
        ensures few { result ≤ 64 }
        ensures checked { IsChecked self.now.plan }
    {
        self.plan.edges.len()
    }

    /// An edge's end of its connection with a peer stands.
    #[tactic(auto, unfolding(crate::specs::Lists::network_seen))]
    pub fn stands(&self, edge: EdgeId, peer: EdgeId) -> bool
        requires edge { edge.0 < length self.now.plan.edges }
        ensures { result ≡ stands (network_seen self.now) edge.0 peer.0 }
    {
        self.edges[edge.0 as usize].has_end(peer)
    }

    /// The two edges are joined, and neither end of a connection between them stands. No segment joins an edge with itself.
    pub fn can_connect(&self, a: EdgeId, b: EdgeId) -> bool
        requires a { a.0 < length self.now.plan.edges }
        requires b { b.0 < length self.now.plan.edges }
        ensures can { result ≡ can_connect self.now.plan (network_seen self.now) a.0 b.0 }
        ensures apart { result ≡ true → (b.0 == a.0) ≡ false }
    {
        self.plan.joined(a, b) && (!self.stands(a, b) && !self.stands(b, a))
    }

    /// Nothing is on its way from an edge to another one.
    #[tactic(auto, unfolding(crate::specs::Lists::network_seen))]
    pub fn is_drained(&self, from: EdgeId, to: EdgeId) -> bool
        requires from { from.0 < length self.now.plan.edges }
        requires to { to.0 < length self.now.plan.edges }
        ensures { result ≡ is_drained_pipe (network_seen self.now) from.0 to.0 }
    {
        self.pipes.len(from.0 as usize, to.0 as usize) == 0
    }

    /// The receiver's end stands, and octets are on their way to it, or the end that put them is gone.
    pub fn is_deliverable(&self, from: EdgeId, to: EdgeId) -> bool
        requires from { from.0 < length self.now.plan.edges }
        requires to { to.0 < length self.now.plan.edges }
        ensures { result ≡ is_deliverable (network_seen self.now) from.0 to.0 }
    {
        self.stands(to, from) && (!self.is_drained(from, to) || !self.stands(from, to))
    }

    /// The same from one edge to another one, and back from there.
    pub fn deliverable_between(&self, one: EdgeId, other: EdgeId) -> (bool, bool)
        requires one { one.0 < length self.now.plan.edges }
        requires other { other.0 < length self.now.plan.edges }
        ensures there { result.0 ≡ is_deliverable (network_seen self.now) one.0 other.0 }
        ensures back { result.1 ≡ is_deliverable (network_seen self.now) other.0 one.0 }
    {
        let near = self.stands(one, other);
        let far = self.stands(other, one);
        (
            self.is_ready(one, other, near, far),
            self.is_ready(other, one, far, near),
        )
    }

    // Something is to be delivered, where it is known which ends stand.
    fn is_ready(&self, from: EdgeId, to: EdgeId, sender: bool, receiver: bool) -> bool
        requires from { from.0 < length self.now.plan.edges }
        requires to { to.0 < length self.now.plan.edges }
        ensures { result ≡ (receiver && (not (is_drained_pipe (network_seen self.now) from.0 to.0) || not sender)) }
    {
        receiver && (!self.is_drained(from, to) || !sender)
    }

    /// The first two edges that have something to deliver, in the plan's order of the sender and then of the receiver. It
    /// looks at them all.
    #[tactic(auto, using(crate::proofs::PairLemmas::pair_steps))]
    pub fn first_deliverable(&self) -> Option<(usize, usize)>
        ensures first { result ≡ first_pair (is_deliverable (network_seen self.now)) (length self.now.plan.edges) 0 (length self.now.plan.edges) }
        ensures within { IfSome result (λ pair. (pair.0 < length self.now.plan.edges) × (pair.1 < length self.now.plan.edges)) }
    {
        let count = self.count();
        for from in 0..count {
            if let Some(to) = self.first_deliverable_from(from) {
                return Some((from, to));
            }
        }
        None
    }

    // The first edge to which an edge has something to deliver.
    #[tactic(auto, using(crate::proofs::PairLemmas::place_steps))]
    fn first_deliverable_from(&self, from: usize) -> Option<usize>
        requires { from < length self.now.plan.edges }
        ensures first { result ≡ first_from (is_deliverable (network_seen self.now) from) 0 (length self.now.plan.edges) }
        ensures within { IfSome result (λ to. to < length self.now.plan.edges) }
    {
        let count = self.count();
        for to in 0..count {
            if self.is_deliverable(EdgeId(from as u16), EdgeId(to as u16)) {
                return Some(to);
            }
        }
        None
    }
}
