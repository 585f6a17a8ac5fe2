//! Octets of LDP are heard (RFC 5036 section 3.5.3): one PDU after another, and each message of a PDU in turn.
ghost use Rattle.pw_messages.specs.LinkAnswers.{Agrees, Answers};
ghost use Rattle.edge_model.specs.declared.effect.Effect.{Effect};
ghost use Rattle.edge_model.specs.{Hear.{acts_on, advice_of, advises, hears, hears_message, hears_pdu, holds}, State.{has_end}};
ghost use Rattle.edge_model.specs.declared.input.Input.TheVariants.{Octets};
ghost use Rattle.net_base.specs.declared.outside.link_call.LinkCall.{LinkCall};
ghost use Rattle.std.specs.{Prelude.{◌≡◌, ◌<◌, ◌+◌, ◌++◌, List, ℕ, true, Some, OnOk, length}, List.{AllByRecursion}};
ghost use Rattle.net_values.specs.Octets.{AreOctets};
ghost use Rattle.peer_dialogue.specs.{Heard.{CanBeHeard}, Hearing.{HearsOn, IsWaitingFor, alive}, Peering.{at_edge}};
ghost use Rattle.provider_edge.specs.{AtWork.{IsBegun, Takes, TakesBy, Works, WorksBy, at_work}, Hearing.{AreTakenOut}};
ghost use Rattle.provider_edge.specs.Lists.{Keeps, seen};

use crate::Edge;
use ldp_grammar::{LdpId, Message, Pdu};
use net_base::{EdgeId, Link, NoMemory};
use peer_dialogue::{AtWork, Held, Next, PeerEvent, advice_of};
use pw_messages::binding_in;

impl Edge {
    // Octets of LDP come from a peer.
    pub(crate) fn octets<L: Link>(
        &mut self,
        peer: EdgeId,
        octets: &[u8],
        work: &mut AtWork<'_, L>,
    ) -> Result<(), NoMemory>
        requires { IsBegun self.old work.old }
        ensures goes { Takes L.calls self.old work.old self.new work.new }
        ensures step { OnOk result (TakesBy L.calls self.old work.old self.new work.new (Octets peer octets.entry)) }
    {
        let Some(held) = self.take_held(peer) else {
            work.effects.idle = true;
            return Ok(());
        };
        self.hear(held, peer, octets, work)?;
        self.mend(work)
    }

    // Takes out the octets that are held of a peer, where the edge's end of the connection stands.
    fn take_held(&mut self, peer: EdgeId) -> Option<Held>
        requires working { self.old.stopped ≡ true }
        ensures keeps { Keeps self.old self.new }
        ensures step { AreTakenOut peer ((seen self.old).peering peer.0) (seen self.old) (seen self.new) result }
    {
        if peer.0 as usize >= self.peerings.len() {
            return None;
        }
        self.peerings.take_held(peer)
    }

    // Holds octets of a peer, where the edge's end of the connection stands.
    fn hold(&mut self, peer: EdgeId, held: Held)
        requires working { self.old.stopped ≡ true }
        requires few { length held < 4100 }
        ensures keeps { Keeps self.old self.new }
        ensures step { (calls : List LinkCall) (out : List Effect) → at_edge (seen self.new) calls out ≡ holds peer held ((seen self.old).peering peer.0) (at_edge (seen self.old) calls out) }
    {
        if peer.0 as usize >= self.peerings.len() {
            return;
        }
        self.peerings.hold(peer, held);
    }

    // Octets are heard behind those that were held of a peer. PDUs are heard one after another, each within the maximum
    // that the session then has (RFC 5036 section 3.5.3); those behind the last one are then held. Nothing is
    // heard after the end of the session.
    fn hear<L: Link>(
        &mut self,
        mut held: Held,
        peer: EdgeId,
        octets: &[u8],
        work: &mut AtWork<'_, L>,
    ) -> Result<(), NoMemory>
        requires working { self.old.stopped ≡ true }
        ensures goes { Works L.calls self.old work.old self.new work.new }
        ensures step { OnOk result (WorksBy L.calls self.old work.old self.new work.new (λ told. hears self.old.plan told peer (held ++ octets.now))) }
    {
        let mut at = 0;
        'hearing: loop {
            self.hear_held(&mut held, peer, work)?;
            if !self.has_end(peer) {
                return Ok(());
            }
            if at == octets.len() {
                self.hold(peer, held);
                return Ok(());
            }
            at += held.feed_from(work.alloc, octets, at)?;
        }
    }

    // All the PDUs that are held are heard, as long as the session stands.
    #[tactic(auto, using(crate::proofs::MessageLemmas::waits_for, crate::proofs::MessageLemmas::waits_not))]
    fn hear_held<L: Link>(
        &mut self,
        held: &mut Held,
        peer: EdgeId,
        work: &mut AtWork<'_, L>,
    ) -> Result<(), NoMemory>
        requires working { self.old.stopped ≡ true }
        ensures goes { Works L.calls self.old work.old self.new work.new }
        ensures waiting { OnOk result (IsWaitingFor ((seen self.new).peering peer.0) held.new) }
        ensures step { OnOk result ((told : Answers) (more : List ℕ) → Agrees told (L.calls work.new.link.now) → AreOctets more
            → HearsOn self.old.plan told peer (held.old ++ more) (held.new ++ more) (at_work L.calls self.old work.old) (at_work L.calls self.new work.new)) }
    {
        'pdus: loop {
            let Some(max) = self.max_pdu(peer) else {
                return Ok(());
            };
            match held.next(work.alloc, max)? {
                Next::More => return Ok(()),
                Next::Fault(fault) => {
                    return self.happens(peer, PeerEvent::Refused(fault), work);
                }
                Next::KeepAlive { sender, id } => self.hear_keep_alive(peer, sender, id, work)?,
                Next::Pdu(pdu) => self.hear_pdu(peer, &pdu, work)?,
            }
        }
    }

    // A PDU of one KeepAlive is heard: its sender, and then its message.
    fn hear_keep_alive<L: Link>(
        &mut self,
        peer: EdgeId,
        sender: LdpId,
        id: u32,
        work: &mut AtWork<'_, L>,
    ) -> Result<(), NoMemory>
        requires working { self.old.stopped ≡ true }
        ensures goes { Works L.calls self.old work.old self.new work.new }
        ensures step { OnOk result (WorksBy L.calls self.old work.old self.new work.new (λ told. hears_pdu self.old.plan told peer (alive sender id))) }
    {
        self.happens(peer, PeerEvent::Heard(sender), work)?;
        self.hear_message(peer, &Message::KeepAlive { id }, work)
    }

    // A PDU is heard: its sender, and then its messages in turn.
    fn hear_pdu<L: Link>(
        &mut self,
        peer: EdgeId,
        pdu: &Pdu,
        work: &mut AtWork<'_, L>,
    ) -> Result<(), NoMemory>
        requires working { self.old.stopped ≡ true }
        requires heard { AllByRecursion CanBeHeard pdu.now.messages }
        ensures goes { Works L.calls self.old work.old self.new work.new }
        ensures step { OnOk result (WorksBy L.calls self.old work.old self.new work.new (λ told. hears_pdu self.old.plan told peer pdu.now)) }
    {
        self.happens(peer, PeerEvent::Heard(pdu.id), work)?;
        let messages = pdu.messages.as_slice();
        for place in 0..messages.len() {
            self.hear_message(peer, &messages[place], work)?;
        }
        Ok(())
    }

    // A message is heard: by the session, and by the edge where the session was up and still is. Then the edge mends its ends. After the
    // end of the session none is heard.
    fn hear_message<L: Link>(
        &mut self,
        peer: EdgeId,
        message: &Message,
        work: &mut AtWork<'_, L>,
    ) -> Result<(), NoMemory>
        requires working { self.old.stopped ≡ true }
        requires heard { CanBeHeard message.now }
        ensures goes { Works L.calls self.old work.old self.new work.new }
        ensures step { OnOk result (WorksBy L.calls self.old work.old self.new work.new (λ told. hears_message self.old.plan told peer message.now)) }
    {
        if !self.has_end(peer) {
            return Ok(());
        }
        let was_up = self.is_up(peer);
        self.happens(peer, PeerEvent::Received(message), work)?;
        if was_up && self.has_end(peer) {
            self.act(peer, message, work)?;
        }
        self.mend(work)
    }

    // What the edge does on a message, one call each.
    fn act<L: Link>(
        &mut self,
        peer: EdgeId,
        message: &Message,
        work: &mut AtWork<'_, L>,
    ) -> Result<(), NoMemory>
        requires stands { has_end (seen self.old) peer ≡ true }
        requires working { self.old.stopped ≡ true }
        requires heard { CanBeHeard message.now }
        ensures goes { Works L.calls self.old work.old self.new work.new }
        ensures step { OnOk result (WorksBy L.calls self.old work.old self.new work.new (λ told. acts_on self.old.plan told peer message.now)) }
    {
        match message {
            Message::LabelMapping {
                fec,
                label,
                pw_status,
                points,
                ..
            } => {
                let binding = binding_in(fec, *label, *pw_status, points);
                self.hear_mapping(peer, fec, &binding, work)
            }
            Message::LabelWithdraw { fec, label, .. } => {
                self.hear_withdraw(peer, fec, label, work)
            }
            Message::LabelRelease { fec, label, .. } => {
                self.hear_release(peer, fec, *label);
                Ok(())
            }
            Message::Notification {
                status,
                pw_status,
                fec,
                ..
            } => {
                self.hear_status(peer, *status, *pw_status, fec.as_ref());
                Ok(())
            }
            Message::AddressWithdraw { fec, macs, .. } => {
                self.hear_mac_withdraw(peer, fec, macs, work)
            }
            Message::Hello { .. }
            | Message::Initialization { .. }
            | Message::KeepAlive { .. }
            | Message::Address { .. }
            | Message::LabelRequest { .. }
            | Message::LabelAbort { .. }
            | Message::Other { .. }
            | Message::Unprocessed { .. } => self.tell_advice(peer, message, work),
        }
    }

    // What is told of a message that is not processed. An advisory that the link did not take ends the session, and its ends are lost.
    fn tell_advice<L: Link>(
        &mut self,
        peer: EdgeId,
        unprocessed: &Message,
        work: &mut AtWork<'_, L>,
    ) -> Result<(), NoMemory>
        requires working { self.old.stopped ≡ true }
        requires stands { has_end (seen self.old) peer ≡ true }
        ensures goes { Works L.calls self.old work.old self.new work.new }
        ensures step { OnOk result (WorksBy L.calls self.old work.old self.new work.new (λ told. advises told peer (advice_of unprocessed.now))) }
    {
        let Some(reply) = advice_of(unprocessed) else {
            return Ok(());
        };
        let Some(peering) = self.take_peering(peer) else {
            return Ok(());
        };
        let left = peering.put(peer, reply, work)?;
        self.put_peering(peer, left);
        self.clear_ends(peer);
        Ok(())
    }
}
