//! What an edge calls its wires is told.
ghost use Rattle.std.specs.Prelude.{◌≡◌, ◌<◌, ℕ, Some, None, Ok, Err, length, slice_get, IfOk};
ghost use Rattle.net_base.specs.declared.plan.{places.EdgeId.{EdgeId}, wire_plan.WirePlan.{WirePlan}};
ghost use Rattle.independent_model.specs.{Calls.{tells_other}, State.{ConnectionState, spoken_once, with_connection}};
ghost use Rattle.independent_model.specs.{Tell.{octets_on, tells, tells_from}, Wires.{other_end}};
ghost use Rattle.independent_model.specs.Work.{CallsGoOn, IsPutOnLink, NeverRefused};
ghost use Rattle.independent_mode.specs.{Changed.{ChangesOnly}, Lists.{KeepsIndependent, independent_seen}, Speaking.{Speaks}};

use crate::notification::{Sender, notification_octets};
use crate::peer_work::PeerWork;
use crate::{IndepEdge, IndepStop};
use net_base::{EdgeId, Link, LinkStop, NoMemory, Octets};
use std::alloc::Global;

impl IndepEdge {
    // The octets that tell what the edge calls a wire, in a message with this number.
    fn octets_of(&self, alloc: Global, wire: usize, id: u32) -> Result<Octets, NoMemory>
        requires { wire < length self.now.plan.wires }
        ensures { IfOk result (λ octets. (row : WirePlan) → slice_get self.now.plan.wires wire ≡ Some row → octets ≡ octets_on self.now.plan self.now.me.0 row ((independent_seen self.now).local wire) id) }
    {
        let sender = Sender {
            me: self.me,
            router: self.plan.edges.as_slice()[self.me.0 as usize].address,
        };
        let row = &self.plan.wires.as_slice()[wire];
        notification_octets(alloc, row, sender, self.wish(wire), id)
    }

    // The next message to a peer has the next number.
    #[tactic(auto, using(crate::proofs::ChangedLemmas::only_put_back, crate::proofs::ChangedLemmas::only_none))]
    fn count(&mut self, peer: EdgeId)
        requires within { peer.0 < length self.old.plan.edges }
        ensures keeps { KeepsIndependent self.old self.new }
        ensures step { (kept : ConnectionState) → (independent_seen self.old).connection peer.0 ≡ Some kept → independent_seen self.new ≡ with_connection peer.0 (Some (spoken_once kept)) (independent_seen self.old) }
        ensures changed { ChangesOnly peer.0 (independent_seen self.old) (independent_seen self.new) }
    {
        if let Some(connection) = self.take_connection(peer) {
            self.put_connection(peer, Some(connection.spoken()));
        }
    }

    // What the edge calls a wire is told to a peer, where it is connected.
    #[tactic(auto, using(crate::proofs::TellLemmas::told_none, crate::proofs::TellLemmas::told_ok, crate::proofs::TellLemmas::told_err, crate::proofs::TellLemmas::same_calls, crate::proofs::ChangedLemmas::only_same))]
    pub(crate) fn tell<L: Link>(
        &mut self,
        work: PeerWork,
        wire: usize,
        link: &mut L,
    ) -> Result<(), IndepStop>
        requires within { work.peer.0 < length self.old.plan.edges }
        requires wire { wire < length self.old.plan.wires }
        ensures speaks { Speaks self.old self.new (L.calls link.old) (L.calls link.new) result (λ told. tells self.old.plan told self.old.me.0 work.peer wire (independent_seen self.old) (L.calls link.old)) }
        ensures changed { ChangesOnly work.peer.0 (independent_seen self.old) (independent_seen self.new) }
    {
        let Some(id) = self.next_id(work.peer) else {
            return Ok(());
        };
        let octets = match self.octets_of(work.alloc, wire, id) {
            Ok(octets) => octets,
            Err(NoMemory) => return Err(IndepStop::NoMemory),
        };
        match put_bytes(work.peer, octets.as_slice(), link) {
            Ok(()) => {
                self.count(work.peer);
                Ok(())
            }
            Err(stop) => Err(stop),
        }
    }

    // The same to the edge at the other end of the wire.
    pub(crate) fn tell_other<L: Link>(
        &mut self,
        alloc: Global,
        wire: usize,
        link: &mut L,
    ) -> Result<(), IndepStop>
        requires wire { wire < length self.old.plan.wires }
        ensures speaks { Speaks self.old self.new (L.calls link.old) (L.calls link.new) result (λ told. tells_other self.old.plan told self.old.me.0 wire (other_end self.old.plan self.old.me.0 wire) (independent_seen self.old) (L.calls link.old)) }
        ensures changed { (peer : EdgeId) → other_end self.old.plan self.old.me.0 wire ≡ Some peer → ChangesOnly peer.0 (independent_seen self.old) (independent_seen self.new) }
    {
        match self.other_end(wire) {
            Some(peer) => self.tell(PeerWork { peer, alloc }, wire, link),
            None => Ok(()),
        }
    }

    // The same of each wire that joins the edge and the peer, in the order of the plan.
    #[tactic(auto, using(crate::proofs::TellLemmas::from_more, crate::proofs::TellLemmas::from_end, crate::proofs::TellLemmas::same_calls, crate::proofs::ChangedLemmas::only_same, crate::proofs::ChangedLemmas::only_both))]
    pub(crate) fn tell_all<L: Link>(
        &mut self,
        work: PeerWork,
        link: &mut L,
    ) -> Result<(), IndepStop>
        requires { work.peer.0 < length self.old.plan.edges }
        ensures speaks { Speaks self.old self.new (L.calls link.old) (L.calls link.new) result (λ told. tells_from self.old.plan told self.old.me.0 work.peer 0 (length self.old.plan.wires) (independent_seen self.old) (L.calls link.old)) }
        ensures changed { ChangesOnly work.peer.0 (independent_seen self.old) (independent_seen self.new) }
    {
        let count = self.plan.wires.len();
        for wire in 0..count {
            if self.is_with(wire, work.peer) {
                match self.tell(work, wire, link) {
                    Ok(()) => {}
                    Err(stop) => return Err(stop),
                }
            }
        }
        Ok(())
    }
}

// Puts octets.
fn put_bytes<L: Link>(peer: EdgeId, bytes: &[u8], link: &mut L) -> Result<(), IndepStop>
    ensures called { IsPutOnLink peer bytes.now (L.calls link.old) (L.calls link.new) result }
    ensures goes { CallsGoOn (L.calls link.old) (L.calls link.new) }
    ensures never { NeverRefused result }
{
    match link.put(peer, bytes) {
        Ok(()) => Ok(()),
        Err(LinkStop::Failed) => Err(IndepStop::Link),
        Err(LinkStop::NoMemory) => Err(IndepStop::NoMemory),
    }
}
