//! Connections of the edge: one stands, one is lost, and the edge restarts.
ghost use Rattle.std.specs.{Prelude.{◌≡◌, ◌<◌, [], true, false, List, length, slice_get, OnOk}, List.{list_any}};
ghost use Rattle.net_base.specs.{plan.Paths.{are_joined}, declared.outside.link_call.LinkCall.{LinkCall}};
ghost use Rattle.session_core.specs.State.{IsProper};
ghost use Rattle.edge_model.specs.{Connection.{connects, restart_input}, Labels.{meeting}, Work.{beginning}};
ghost use Rattle.edge_model.specs.declared.input.Input.TheVariants.{Connected, Lost};
ghost use Rattle.peer_dialogue.specs.Peering.{connection_with, peers_between};
ghost use Rattle.provider_edge.specs.{AtWork.{IsBegun, Takes, TakesBy, Works, WorksBy}, EndOf.{is_end_beside}, Lists.{Keeps, seen, worked}};

use crate::Edge;
use crate::pings::forget_pings;
use edge_model::{Effect, EndPlace};
use net_base::{EdgeId, Link, NoMemory, StateName};
use peer_dialogue::{AtWork, PeerEvent, Peering};
use session_core::Peers;

impl Edge {
    // The edge's end of a connection with a peer stands, and its session begins.
    pub(crate) fn connected<L: Link>(
        &mut self,
        peer: EdgeId,
        work: &mut AtWork<'_, L>,
    ) -> Result<(), NoMemory>
        requires { IsBegun self.old work.old }
        ensures goes { Takes L.calls self.old work.old self.new work.new }
        ensures step { OnOk result (TakesBy L.calls self.old work.old self.new work.new (Connected peer)) }
    {
        // Named so that what always holds of the fields is at hand for the proof.
        let _ = &self.plan;
        if !self.joined(peer) || self.has_end(peer) {
            work.effects.idle = true;
            return Ok(());
        }
        let Some(peers) = self.peers_with(peer) else {
            work.effects.idle = true;
            return Ok(());
        };
        self.connect(peer, peers, work)?;
        self.mend(work)
    }

    // Whether a segment of a wire joins the edge with a peer (RFC 6073 section 4): then an end of the edge is beside it. The wires of
    // other edges are not looked at.
    fn joined(&self, peer: EdgeId) -> bool
        ensures { result ≡ are_joined self.now.plan self.now.me.0 peer.0 }
    {
        is_beside(self.ends.places(), peer)
    }

    // A connection with a peer stands, so the labels that waited for it rest from now on, and its session begins (RFC 5036 section 2.5.3).
    fn connect<L: Link>(
        &mut self,
        peer: EdgeId,
        peers: Peers,
        work: &mut AtWork<'_, L>,
    ) -> Result<(), NoMemory>
        requires working { self.old.stopped ≡ true }
        requires within { peer.0 < length self.old.plan.edges }
        requires proper { IsProper peers }
        ensures goes { Works L.calls self.old work.old self.new work.new }
        ensures step { OnOk result (WorksBy L.calls self.old work.old self.new work.new (λ told. connects told peer (connection_with peers))) }
    {
        self.meet(peer);
        let absent = !self.has_end(peer);
        let marks = if absent { self.marks } else { None };
        self.put_peering(peer, Some(Peering::open(peers)));
        self.keep_marks(marks);
        work.effects.list.push(Effect::Session {
            peer,
            state: StateName::Initialized,
        })?;
        self.happens(peer, PeerEvent::Start, work)
    }

    // The labels that wait for a peer begin to rest. None is free by that, so it unsettles no end.
    fn meet(&mut self, peer: EdgeId)
        requires working { self.old.stopped ≡ true }
        ensures keeps { Keeps self.old self.new }
        ensures step { seen self.new ≡ meeting peer (seen self.old) }
    {
        self.ends.met(peer);
    }

    // The two ends of a session, as the plan has them.
    fn peers_with(&self, peer: EdgeId) -> Option<Peers>
        ensures { result ≡ peers_between (slice_get self.now.plan.edges self.now.me.0) (slice_get self.now.plan.edges peer.0) }
    {
        let own = self.plan.edges.get(self.me.0 as usize)?;
        let other = self.plan.edges.get(peer.0 as usize)?;
        Some(Peers {
            me: own.address,
            peer: other.address,
            keepalive: own.keepalive,
            max_pdu: own.max_pdu,
        })
    }

    // The edge's end of a connection with a peer is lost.
    pub(crate) fn lost<L: Link>(
        &mut self,
        peer: EdgeId,
        work: &mut AtWork<'_, L>,
    ) -> Result<(), NoMemory>
        requires { IsBegun self.old work.old }
        ensures goes { Takes L.calls self.old work.old self.new work.new }
        ensures step { OnOk result (TakesBy L.calls self.old work.old self.new work.new (Lost peer)) }
    {
        let marks = self.marks;
        let Some(peering) = self.take_peering(peer) else {
            work.effects.idle = true;
            return Ok(());
        };
        peering.lose(peer, work)?;
        self.clear_ends(peer);
        let marks = self.marks_beside(marks, peer);
        self.keep_marks(marks);
        self.mend(work)
    }

    // The edge restarts: it keeps its ticks, what was set of its circuits and wires, the label that it gives next, and the labels that may
    // be given again. Those that its ends owned wait for their neighbours.
    pub(crate) fn restart(&mut self)
        requires working { self.old.stopped ≡ true }
        ensures keeps { Keeps self.old self.new }
        ensures step { (calls : List LinkCall) → worked self.new calls (record { idle = false; list = [] }) ≡ restart_input (beginning (seen self.old) calls) }
    {
        self.marks = None;
        self.peerings.clear();
        self.ends.restarted();
        forget_pings(&mut self.pings);
        self.spokes.clear();
        self.forwarding.close_wires();
        self.forwarding.clear();
    }
}

// Whether one of these ends is beside a peer. A test by a closure is proved where it stands alone.
fn is_beside(places: &[EndPlace], peer: EdgeId) -> bool
    ensures { result ≡ list_any (is_end_beside peer.0) places.now }
{
    places.iter().any(|place| place.peer == peer)
}
