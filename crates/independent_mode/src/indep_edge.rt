//! An edge in independent mode.
ghost use Rattle.std.specs.Prelude.{◌≡◌, ◌<◌, ◌↔◌, ℕ, Some, None, Ok, Err, true, false, is_some, length, IfOk, OnErr, OnOk};
ghost use Rattle.net_base.specs.{declared.plan.places.EdgeId.{EdgeId}, plan.Accepted.{IsChecked}};
ghost use Rattle.pw_messages.specs.LinkAnswers.{Agrees, Answers};
ghost use Rattle.status_exchange.specs.Wish.{is_same_wish};
ghost use Rattle.independent_model.specs.Calls.{independent_connects, independent_hears, is_connected, loses, sets, uses};
ghost use Rattle.independent_model.specs.State.{first_state, fresh_connection, with_connection, with_local};
ghost use Rattle.independent_model.specs.{Stops.{EndsBy}, Wires.{other_end}, Work.{Comes, CallsGoOn, NeverRefused}};
ghost use Rattle.independent_mode.specs.{Changed.{ChangesOnly, HearsCome}, Lists.{KeepsIndependent, independent_seen}, Receiver.{HoldsBy}};

mod hearing;
mod opening;
mod parts;
mod telling;

use crate::connection::Connection;
use crate::peer_work::PeerWork;
use crate::{IndepStop, Wish};
use net_base::{EdgeId, Link, NoMemory, Plan, WireId};
use pw_tlvs::PwStatus;
use std::alloc::Global;
use std::marker::Model;
use std::rc::Rc;

/// An edge of a plan in independent mode: what it calls its wires of two edges, the last status that it has heard of the other end of
/// each, and its connections. Contracts see it as lists by the plan's places, and by `seen` as maps.
#[derive(Drop)]
pub struct IndepEdge {
    plan: Rc<Plan>,
    me: EdgeId,
    wishes: Vec<Wish>,
    remotes: Vec<Option<PwStatus>>,
    connections: Vec<Option<Connection>>,
}

impl Model for IndepEdge {
    ghost use Rattle.independent_mode.specs.Lists.{IndepLists, IsIndep};

    ghost Value = { IndepLists };

    ghost view = { λ e. record { plan = e.plan.value; me = e.me; wishes = e.wishes.items; remotes = e.remotes.items; connections = e.connections.items } };

    ghost invariant = { λ e. IsIndep (record { plan = e.plan.value; me = e.me; wishes = e.wishes.items; remotes = e.remotes.items; connections = e.connections.items }) };
}

impl IndepEdge {
    /// A connection with a peer stands: each wire with it is told, in the order of the plan, with messages that are numbered from 1. A peer
    /// is connected from this call on until `lost`, also where this call is refused; nothing but what is kept of it changes. The peer
    /// shares a wire of two edges, and is not connected. `Link` comes exactly where a `put` of this call has failed, which is then the
    /// last one.
    #[tactic(auto, using(crate::proofs::TellLemmas::same_calls, crate::proofs::ChangedLemmas::only_both, crate::proofs::ChangedLemmas::begun_stands))]
    pub fn connected<L: Link>(
        &mut self,
        alloc: Global,
        peer: EdgeId,
        link: &mut L,
    ) -> Result<(), IndepStop>
        requires within { peer.0 < length self.old.plan.edges }
        ensures keeps { KeepsIndependent self.old self.new }
        ensures goes { CallsGoOn (L.calls link.old) (L.calls link.new) }
        ensures never { NeverRefused result }
        ensures ends { EndsBy (L.calls link.old) (L.calls link.new) result }
        ensures step { (told : Answers) → Agrees told (L.calls link.new) → Comes result (independent_seen self.new) (L.calls link.new) (independent_connects self.old.plan told self.old.me.0 peer (independent_seen self.old) (L.calls link.old)) }
        ensures stands { is_connected (independent_seen self.new) peer.0 ≡ true }
        ensures changed { ChangesOnly peer.0 (with_connection peer.0 (Some fresh_connection) (independent_seen self.old)) (independent_seen self.new) }
    {
        match self.begin(alloc, peer) {
            Ok(()) => self.tell_all(PeerWork { peer, alloc }, link),
            Err(NoMemory) => Err(IndepStop::NoMemory),
        }
    }

    // A connection with a peer stands. Where memory is refused, nothing is heard by it.
    #[tactic(auto, using(crate::proofs::ChangedLemmas::begins_unheard, crate::proofs::ChangedLemmas::begins_twice, crate::proofs::ChangedLemmas::begins_same))]
    fn begin(&mut self, alloc: Global, peer: EdgeId) -> Result<(), NoMemory>
        requires within { peer.0 < length self.old.plan.edges }
        ensures keeps { KeepsIndependent self.old self.new }
        ensures step { OnOk result (independent_seen self.new ≡ with_connection peer.0 (Some fresh_connection) (independent_seen self.old)) }
        ensures changed { ChangesOnly peer.0 (with_connection peer.0 (Some fresh_connection) (independent_seen self.old)) (independent_seen self.new) }
    {
        self.put_connection(peer, Some(Connection::unheard()));
        match Connection::new(alloc) {
            Ok(connection) => {
                self.put_connection(peer, Some(connection));
                Ok(())
            }
            Err(NoMemory) => Err(NoMemory),
        }
    }

    /// Octets of a peer come, with which the edge is connected. Of the messages that they spell each one that tells the status of a wire with
    /// the peer is heard, and all others are ignored. `Refused` comes exactly where no `put` of this call has failed and the octets of the
    /// connection have this fault; from then on it comes at each call. Whatever it answers, some of the messages were heard, from the first
    /// one on, and nothing else has changed but what is kept of the peer.
    #[tactic(auto, using(crate::proofs::HearLemmas::hears_none, crate::proofs::HearLemmas::heard_comes, crate::proofs::TellLemmas::same_calls, independent_model::proofs::StopLemmas::none_ends, crate::proofs::ChangedLemmas::come_none, crate::proofs::ChangedLemmas::come_some))]
    pub fn hear<L: Link>(
        &mut self,
        alloc: Global,
        peer: EdgeId,
        bytes: &[u8],
        link: &mut L,
    ) -> Result<(), IndepStop>
        requires within { peer.0 < length self.old.plan.edges }
        ensures keeps { KeepsIndependent self.old self.new }
        ensures goes { CallsGoOn (L.calls link.old) (L.calls link.new) }
        ensures ends { EndsBy (L.calls link.old) (L.calls link.new) result }
        ensures step { (told : Answers) → Agrees told (L.calls link.new) → Comes result (independent_seen self.new) (L.calls link.new) (independent_hears self.old.plan told self.old.me.0 peer bytes.now (independent_seen self.old) (L.calls link.old)) }
        ensures changed { HearsCome self.old.plan self.old.me.0 peer bytes.now (independent_seen self.old) (independent_seen self.new) }
    {
        let Some(mut receiver) = self.take_receiver(peer) else {
            return Ok(());
        };
        let work = PeerWork { peer, alloc };
        let heard = self.hear_octets(&mut receiver, work, bytes, link);
        self.keep_receiver(peer, receiver, &heard);
        heard
    }

    /// A connection with a peer is lost, and what is known by it.
    pub fn lost(&mut self, peer: EdgeId)
        requires within { peer.0 < length self.old.plan.edges }
        ensures keeps { KeepsIndependent self.old self.new }
        ensures step { independent_seen self.new ≡ loses self.old.plan self.old.me.0 peer (independent_seen self.old) }
    {
        self.put_connection(peer, None);
        self.forget(peer);
    }

    /// The edge calls a wire something else, and tells it where it is connected. It answers false, with no change, exactly where it calls
    /// the wire so already. `Link` comes exactly where the `put` of this call has failed. Where the call is refused the edge calls the wire
    /// so all the same, and nothing else has changed but what is kept of the other end. The wire has two edges and ends here.
    #[tactic(auto, using(independent_model::proofs::WireLemmas::wire_within, crate::proofs::TellLemmas::same_calls, independent_model::proofs::StopLemmas::none_ends, independent_model::proofs::StopLemmas::comes_err, independent_model::proofs::StopLemmas::never_err))]
    pub fn set<L: Link>(
        &mut self,
        alloc: Global,
        wire: WireId,
        to: Wish,
        link: &mut L,
    ) -> Result<bool, IndepStop>
        requires ends { is_some (other_end self.old.plan self.old.me.0 wire.0) ≡ true }
        ensures keeps { KeepsIndependent self.old self.new }
        ensures goes { CallsGoOn (L.calls link.old) (L.calls link.new) }
        ensures never { NeverRefused result }
        ensures ends { EndsBy (L.calls link.old) (L.calls link.new) result }
        ensures same { (result ≡ Ok false) ↔ (is_same_wish ((independent_seen self.old).local wire.0) to ≡ true) }
        ensures step { (told : Answers) → Agrees told (L.calls link.new) → Comes result (independent_seen self.new) (L.calls link.new) (sets self.old.plan told self.old.me.0 wire.0 to (independent_seen self.old) (L.calls link.old)) }
        ensures changed { OnErr result ((peer : EdgeId) → other_end self.old.plan self.old.me.0 wire.0 ≡ Some peer → ChangesOnly peer.0 (with_local wire.0 to (independent_seen self.old)) (independent_seen self.new)) }
    {
        let wire = wire.0 as usize;
        if self.wish(wire) == to {
            return Ok(false);
        }
        self.set_wish(wire, to);
        match self.tell_other(alloc, wire, link) {
            Ok(()) => Ok(true),
            Err(stop) => Err(stop),
        }
    }

    /// Whether the edge uses a wire of the plan: the wire has two edges and ends here, the edge is connected with the other end and calls
    /// the wire active, and the last status that it has heard on this connection is without standby.
    pub fn uses(&self, wire: WireId) -> bool
        requires wire { wire.0 < length self.now.plan.wires }
        ensures { result ≡ uses self.now.plan self.now.me.0 (independent_seen self.now) wire.0 }
    {
        let wire = wire.0 as usize;
        match self.other_end(wire) {
            Some(peer) => self.uses_with(wire, peer),
            None => false,
        }
    }

    /// Whether the edge calls a wire of the plan so already; `set` then answers false.
    pub fn calls_so(&self, wire: WireId, wish: Wish) -> bool
        requires wire { wire.0 < length self.now.plan.wires }
        ensures { result ≡ is_same_wish ((independent_seen self.now).local wire.0) wish }
    {
        self.wish(wire.0 as usize) == wish
    }

    /// Whether the edge is connected with a peer.
    pub fn is_connected(&self, peer: EdgeId) -> bool
        ensures { result ≡ is_connected (independent_seen self.now) peer.0 }
    {
        self.next_id(peer).is_some()
    }

    /// How many octets of a peer are held that are no whole PDU yet: 0 where the edge is not connected with it. Of octets that were refused
    /// nothing is said.
    #[tactic(auto, unfolding(crate::specs::Lists::independent_seen))]
    pub fn held(&self, peer: EdgeId) -> usize
        ensures { HoldsBy result ((independent_seen self.now).connection peer.0) }
    {
        match self.connections.get(peer.0 as usize) {
            Some(Some(connection)) => connection.held(),
            Some(None) | None => 0,
        }
    }

    /// The plan.
    pub fn plan(&self) -> &Plan
        ensures { result.now ≡ self.now.plan }
    {
        &self.plan
    }

    /// The edge's place in the plan.
    pub fn me(&self) -> EdgeId
        ensures { result ≡ self.now.me }
    {
        self.me
    }
}
