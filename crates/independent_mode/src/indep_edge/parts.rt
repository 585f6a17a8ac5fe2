//! What an edge keeps, one part a call.
ghost use Rattle.std.specs.Prelude.{◌≡◌, ◌<◌, ◌&&◌, ℕ, Some, None, length, option_map, slice_get, IfSome, is_some};
ghost use Rattle.status_exchange.specs.{Wish.{is_wished_active}, Laws.{is_known_active}};
ghost use Rattle.independent_model.specs.Calls.{is_connected, uses_with};
ghost use Rattle.independent_model.specs.State.{id_next, spoken_once, with_connection, with_local, with_remote};
ghost use Rattle.independent_model.specs.Wires.{is_between, is_row_between, other_end, wire_named};
ghost use Rattle.independent_mode.specs.Lists.{KeepsIndependent, independent_seen};

use crate::connection::Connection;
use crate::wires::{joins_two, other_of_two, wire_with};
use crate::{IndepEdge, Wish};
use net_base::EdgeId;
use pw_status::standby;
use pw_tlvs::PwStatus;

impl IndepEdge {
    // What the edge calls a wire.
    #[tactic(auto, unfolding(crate::specs::Lists::independent_seen))]
    pub(crate) fn wish(&self, wire: usize) -> Wish
        requires { wire < length self.now.plan.wires }
        ensures { result ≡ (independent_seen self.now).local wire }
    {
        self.wishes[wire]
    }

    pub(crate) fn set_wish(&mut self, wire: usize, wish: Wish)
        requires { wire < length self.old.plan.wires }
        ensures keeps { KeepsIndependent self.old self.new }
        ensures step { independent_seen self.new ≡ with_local wire wish (independent_seen self.old) }
    {
        self.wishes[wire] = wish;
    }

    // The last status that was heard of the other end of a wire.
    #[tactic(auto, unfolding(crate::specs::Lists::independent_seen))]
    pub(crate) fn remote(&self, wire: usize) -> Option<PwStatus>
        requires { wire < length self.now.plan.wires }
        ensures { result ≡ (independent_seen self.now).remote wire }
    {
        self.remotes[wire]
    }

    pub(crate) fn set_remote(&mut self, wire: usize, status: Option<PwStatus>)
        requires { wire < length self.old.plan.wires }
        ensures keeps { KeepsIndependent self.old self.new }
        ensures step { independent_seen self.new ≡ with_remote wire status (independent_seen self.old) }
    {
        self.remotes[wire] = status;
    }

    // The number of the next message to a peer, where the edge is connected with it.
    #[tactic(auto, unfolding(crate::specs::Lists::independent_seen))]
    pub(crate) fn next_id(&self, peer: EdgeId) -> Option<u32>
        ensures { result ≡ option_map id_next ((independent_seen self.now).connection peer.0) }
    {
        match self.connections.get(peer.0 as usize) {
            Some(Some(connection)) => Some(connection.next_id()),
            Some(None) | None => None,
        }
    }

    // Takes out the connection with a peer.
    pub(crate) fn take_connection(&mut self, peer: EdgeId) -> Option<Connection>
        requires within { peer.0 < length self.old.plan.edges }
        ensures keeps { KeepsIndependent self.old self.new }
        ensures taken { result ≡ (independent_seen self.old).connection peer.0 }
        ensures step { independent_seen self.new ≡ with_connection peer.0 None (independent_seen self.old) }
    {
        self.connections[peer.0 as usize].take()
    }

    pub(crate) fn put_connection(&mut self, peer: EdgeId, kept: Option<Connection>)
        requires within { peer.0 < length self.old.plan.edges }
        ensures keeps { KeepsIndependent self.old self.new }
        ensures step { independent_seen self.new ≡ with_connection peer.0 kept (independent_seen self.old) }
    {
        self.connections[peer.0 as usize] = kept;
    }

    // The edge at the other end of a wire of two edges.
    #[tactic(auto, using(independent_model::proofs::WireLemmas::other_within))]
    pub(crate) fn other_end(&self, wire: usize) -> Option<EdgeId>
        requires { wire < length self.now.plan.wires }
        ensures other { result ≡ other_end self.now.plan self.now.me.0 wire }
        ensures within { IfSome result (λ peer. peer.0 < length self.now.plan.edges) }
    {
        other_of_two(self.plan.wires.as_slice()[wire].path.as_slice(), self.me)
    }

    // Whether a wire has two edges, this one and a peer.
    #[tactic(auto, unfolding(independent_model::specs::Wires::is_between))]
    pub(crate) fn is_with(&self, wire: usize, peer: EdgeId) -> bool
        requires { wire < length self.now.plan.wires }
        ensures { result ≡ is_between self.now.plan wire self.now.me.0 peer.0 }
    {
        joins_two(
            self.plan.wires.as_slice()[wire].path.as_slice(),
            self.me,
            peer,
        )
    }

    // The wire with a peer that a FEC names by its PW ID.
    pub(crate) fn named(&self, peer: EdgeId, pw_id: Option<u32>) -> Option<usize>
        ensures wire { result ≡ wire_named self.now.plan self.now.me.0 peer.0 pw_id }
        ensures within { IfSome result (λ wire. wire < length self.now.plan.wires) }
    {
        match pw_id {
            Some(pw_id) => wire_with(self.plan.wires.as_slice(), self.me, peer, pw_id),
            None => None,
        }
    }

    // Whether the edge uses a wire with a peer.
    pub(crate) fn uses_with(&self, wire: usize, peer: EdgeId) -> bool
        requires { wire < length self.now.plan.wires }
        ensures { result ≡ uses_with (independent_seen self.now) wire (Some peer) }
    {
        self.is_connected(peer) && is_active(self.wish(wire)) && is_known_active(self.remote(wire))
    }
}

// Whether an end calls its wire active.
fn is_active(wish: Wish) -> bool
    ensures { result ≡ is_wished_active wish }
{
    match wish {
        Wish::Active | Wish::Ask => true,
        Wish::Standby => false,
    }
}

// Whether the other end is known to call the wire active.
fn is_known_active(status: Option<PwStatus>) -> bool
    ensures { result ≡ is_known_active status }
{
    match status {
        Some(status) => !standby(status),
        None => false,
    }
}
