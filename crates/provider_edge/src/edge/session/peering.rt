//! What an edge keeps of its neighbours: what an event makes of a session, and what is put apart from the events.
ghost use Rattle.std.specs.Prelude.{◌≡◌, ◌≤◌, ◌<◌, ◌↔◌, List, None, length, IfOk, IfSome, OnOk, true, false};
ghost use Rattle.net_base.specs.declared.outside.link_call.LinkCall.{LinkCall};
ghost use Rattle.ldp_codec.specs.declared.decode_fault.DecodeFault.{DecodeFault};
ghost use Rattle.session_core.specs.Table.{Refused};
ghost use Rattle.edge_model.specs.{declared.effect.Effect.{Effect}, Hear.{was_up}, Session.{clears_ends, happens, happens_with_ends, says}};
ghost use Rattle.edge_model.specs.State.{has_end, with_peering};
ghost use Rattle.peer_dialogue.specs.{Event.{MayHappen, event_of}, Peering.{at_edge, held_octets}, PwMessage.{CanBeSaid, numbered}};
ghost use Rattle.provider_edge.specs.{AtWork.{SaysBy, Works, WorksBy}, Bounds.{HoldsFew}, Lists.{Keeps, seen}, Sessions.{longest_of}, Tidy.{stands_as}};

use crate::Edge;
use net_base::{EdgeId, Link, NoMemory};
use peer_dialogue::{AtWork, PeerEvent, Peering, PwMessage};

impl Edge {
    /// Whether no end of a connection of the edge stands.
    pub fn is_alone(&self) -> bool
        ensures alone { (result ≡ true) ↔ ((peer : EdgeId) → has_end (seen self.now) peer ≡ false) }
    {
        self.peerings.is_empty()
    }

    // Whether the session with a neighbour is up.
    #[inline(always)]
    #[tactic(auto, unfolding(crate::specs::Lists::seen))]
    pub(crate) fn is_up(&self, peer: EdgeId) -> bool
        ensures { result ≡ was_up ((seen self.now).peering peer.0) }
    {
        self.peerings.is_up(peer)
    }

    // The most that a PDU Length of a neighbour may be, where the edge's end of the connection stands.
    #[inline(always)]
    #[tactic(auto, unfolding(crate::specs::Lists::seen))]
    pub(crate) fn max_pdu(&self, peer: EdgeId) -> Option<u16>
        ensures value { result ≡ longest_of ((seen self.now).peering peer.0) }
        ensures least { IfSome result (λ max. 256 ≤ max) }
        ensures longest { IfSome result (λ max. max ≤ 4096) }
    {
        self.peerings.max_pdu(peer)
    }

    // Takes out what is kept of a neighbour.
    #[inline(always)]
    pub(crate) fn take_peering(&mut self, peer: EdgeId) -> Option<Peering>
        requires working { self.old.stopped ≡ true }
        ensures keeps { Keeps self.old self.new }
        ensures taken { result ≡ (seen self.old).peering peer.0 }
        ensures within { IfSome result (λ peering. peer.0 < length self.old.plan.edges) }
        ensures step { seen self.new ≡ with_peering peer None (seen self.old) }
    {
        if peer.0 as usize >= self.peerings.len() {
            return None;
        }
        self.marks = None;
        self.peerings.take(peer)
    }

    // Keeps this of a neighbour, or nothing any more.
    #[inline(always)]
    pub(crate) fn put_peering(&mut self, peer: EdgeId, kept: Option<Peering>)
        requires working { self.old.stopped ≡ true }
        requires within { peer.0 < length self.old.plan.edges }
        ensures keeps { Keeps self.old self.new }
        ensures step { seen self.new ≡ with_peering peer kept (seen self.old) }
    {
        held_in(&kept);
        self.marks = None;
        self.peerings.put(peer, kept);
    }

    // Where no session with a neighbour stands, each end beside it is lost (RFC 5036 section 3.5.1.1), if something was told of one, and
    // its label waits for the neighbour.
    #[inline(always)]
    pub(crate) fn clear_ends(&mut self, peer: EdgeId)
        requires working { self.old.stopped ≡ true }
        ensures keeps { Keeps self.old self.new }
        ensures step { (calls : List LinkCall) (out : List Effect) → at_edge (seen self.new) calls out ≡ clears_ends peer (at_edge (seen self.old) calls out) }
    {
        if self.has_end(peer) {
            return;
        }
        if self.ends.is_untold(peer) {
            return;
        }
        self.marks = None;
        self.ends.lose(peer);
    }

    // Something happens to the session with a peer, where it stands; its ends are lost where it ends.
    pub(crate) fn happens<L: Link>(
        &mut self,
        peer: EdgeId,
        event: PeerEvent<'_>,
        work: &mut AtWork<'_, L>,
    ) -> Result<(), NoMemory>
        requires working { self.old.stopped ≡ true }
        requires may { MayHappen event }
        ensures goes { Works L.calls self.old work.old self.new work.new }
        ensures ended { OnOk result ((wrong : DecodeFault) → event_of event.entry ≡ Refused wrong → (seen self.new).peering peer.0 ≡ None) }
        ensures step { OnOk result (WorksBy L.calls self.old work.old self.new work.new (λ told. happens_with_ends told peer (event_of event.entry))) }
    {
        // Nothing is moved where no session stands, which is so for most neighbours at a tick.
        if !self.has_end(peer) {
            self.clear_ends(peer);
            return Ok(());
        }
        let marks = self.marks;
        let Some(peering) = self.take_peering(peer) else {
            self.clear_ends(peer);
            return Ok(());
        };
        let was_up = peering.is_up();
        let left = peering.happens(peer, event, work)?;
        let stands = stands_as(was_up, &left);
        self.put_peering(peer, left);
        self.clear_ends(peer);
        let marks = self.marks_after(marks, stands, peer);
        self.keep_marks(marks);
        Ok(())
    }

    // Puts a message about a pseudowire to a peer, with the Message ID that is next, and answers whether the link did not
    // take it; nothing is put where no session stands. A message that the link did not take ends the session, and its ends
    // are lost.
    pub(crate) fn say<L: Link>(
        &mut self,
        peer: EdgeId,
        message: &PwMessage<'_>,
        work: &mut AtWork<'_, L>,
    ) -> Result<bool, NoMemory>
        requires working { self.old.stopped ≡ true }
        requires said { CanBeSaid message.now }
        ensures goes { Works L.calls self.old work.old self.new work.new }
        ensures step { IfOk result (SaysBy L.calls self.old work.old self.new work.new (λ told. says told peer (numbered message.now))) }
    {
        let marks = self.marks;
        let Some(peering) = self.take_peering(peer) else {
            return Ok(false);
        };
        let was_up = peering.is_up();
        let left = peering.say(peer, message, work)?;
        let failed = left.is_none();
        let stands = stands_as(was_up, &left);
        self.put_peering(peer, left);
        self.clear_ends(peer);
        let marks = self.marks_after(marks, stands, peer);
        self.keep_marks(marks);
        Ok(failed)
    }
}

// How many octets are held of what is kept of a neighbour. It says so for the proof that these are few.
#[inline(always)]
fn held_in(kept: &Option<Peering>) -> usize
    ensures count { result ≡ length (held_octets kept.now) }
    ensures few { HoldsFew kept.now }
{
    match kept {
        Some(peering) => peering.held(),
        None => 0,
    }
}

// Whether the session stands, and is up or not as it was.
#[inline(always)]
fn stands_as(was_up: bool, left: &Option<Peering>) -> bool
    ensures { result ≡ stands_as was_up left.now }
{
    match left {
        Some(peering) => {
            if was_up {
                peering.is_up()
            } else {
                !peering.is_up()
            }
        }
        None => false,
    }
}
