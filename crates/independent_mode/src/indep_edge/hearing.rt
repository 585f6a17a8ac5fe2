//! Octets of a peer are heard.
ghost use Rattle.std.specs.Prelude.{◌≡◌, ◌<◌, ◌++◌, ℕ, List, Some, None, Ok, Err, [], true, false, length, drop, IfOk, OnOk, option_copied};
ghost use Rattle.net_values.specs.Octets.{AreOctets};
ghost use Rattle.pw_messages.specs.LinkAnswers.{Agrees, Answers};
ghost use Rattle.independent_mode.specs.{Receiver.{IsTakenOut, IsReceiverWaiting, receiver_of, kept_after}, Heard.{HearsTo}};
ghost use Rattle.independent_mode.specs.Changed.{ChangesOnly, HearsAll, HearsFront, HearsSome, learns_message, learns_messages, learns_notice};
ghost use Rattle.independent_mode.specs.{Lists.{KeepsIndependent, independent_seen}, Speaking.{Speaks}};
ghost use Rattle.independent_model.specs.Hear.{hears_at, independent_hears_message, independent_hears_messages, hears_notice, independent_hears_status, learns};
ghost use Rattle.independent_model.specs.{State.{with_receiver, with_remote, without_remotes}, Wires.{is_between}};
ghost use Rattle.independent_model.specs.Work.{Comes, CallsGoOn};

use crate::connection::PeerStream;
use crate::peer_work::PeerWork;
use crate::{IndepEdge, IndepStop};
use ldp_grammar::Message;
use net_base::{EdgeId, Link};
use pw_messages::PW_STATUS_CODE;
use pw_tlvs::{PwFec, PwStatus};
use status_exchange::{becomes, is_told};
use std::alloc::Global;

// What a Notification tells that may be of a pseudowire.
#[derive(Clone, Copy)]
struct Notice {
    code: u32,
    status: Option<PwStatus>,
    fec: Option<PwFec>,
}

// The status of a wire of the plan.
#[derive(Clone, Copy)]
struct WireStatus {
    wire: usize,
    status: PwStatus,
}

impl IndepEdge {
    // The status of a wire with a peer is heard.
    #[tactic(auto, using(crate::proofs::ChangedLemmas::only_learned, crate::proofs::ChangedLemmas::only_same))]
    fn hear_status<L: Link>(
        &mut self,
        work: PeerWork,
        heard: WireStatus,
        link: &mut L,
    ) -> Result<(), IndepStop>
        requires wire { heard.wire < length self.old.plan.wires }
        requires within { work.peer.0 < length self.old.plan.edges }
        ensures speaks { Speaks self.old self.new (L.calls link.old) (L.calls link.new) result (λ told. independent_hears_status self.old.plan told self.old.me.0 work.peer heard.wire heard.status (independent_seen self.old) (L.calls link.old)) }
        ensures changed { ChangesOnly work.peer.0 (learns heard.wire heard.status (independent_seen self.old)) (independent_seen self.new) }
    {
        let WireStatus { wire, status } = heard;
        let wish = self.wish(wire);
        self.set_remote(wire, Some(status));
        self.set_wish(wire, becomes(status, wish));
        if is_told(status, wish) {
            self.tell(work, wire, link)
        } else {
            Ok(())
        }
    }

    // A Notification is heard that may tell the status of a wire with the peer.
    #[tactic(auto, using(crate::proofs::ChangedLemmas::only_same))]
    fn hear_notice<L: Link>(
        &mut self,
        work: PeerWork,
        notice: Notice,
        link: &mut L,
    ) -> Result<(), IndepStop>
        requires within { work.peer.0 < length self.old.plan.edges }
        ensures speaks { Speaks self.old self.new (L.calls link.old) (L.calls link.new) result (λ told. hears_notice self.old.plan told self.old.me.0 work.peer notice.code notice.status notice.fec (independent_seen self.old) (L.calls link.old)) }
        ensures changed { ChangesOnly work.peer.0 (learns_notice self.old.plan self.old.me.0 work.peer notice.code notice.status notice.fec (independent_seen self.old)) (independent_seen self.new) }
    {
        let Notice { code, status, fec } = notice;
        let Some(status) = status else {
            return Ok(());
        };
        let Some(fec) = fec else {
            return Ok(());
        };
        if code != PW_STATUS_CODE {
            return Ok(());
        }
        match self.named(work.peer, fec.pw_id) {
            Some(wire) => self.hear_status(work, WireStatus { wire, status }, link),
            None => Ok(()),
        }
    }

    // A message is heard.
    #[tactic(auto, using(crate::proofs::ChangedLemmas::only_same))]
    fn hear_message<L: Link>(
        &mut self,
        work: PeerWork,
        message: &Message,
        link: &mut L,
    ) -> Result<(), IndepStop>
        requires within { work.peer.0 < length self.old.plan.edges }
        ensures speaks { Speaks self.old self.new (L.calls link.old) (L.calls link.new) result (λ told. independent_hears_message self.old.plan told self.old.me.0 work.peer message.now (independent_seen self.old) (L.calls link.old)) }
        ensures changed { ChangesOnly work.peer.0 (learns_message self.old.plan self.old.me.0 work.peer message.now (independent_seen self.old)) (independent_seen self.new) }
    {
        match message {
            Message::Notification {
                status,
                pw_status,
                fec,
                ..
            } => {
                let notice = Notice {
                    code: status.code,
                    status: *pw_status,
                    fec: *fec,
                };
                self.hear_notice(work, notice, link)
            }
            _ => Ok(()),
        }
    }

    // Messages are heard in turn.
    fn hear_messages<L: Link>(
        &mut self,
        work: PeerWork,
        messages: &[Message],
        link: &mut L,
    ) -> Result<(), IndepStop>
        requires within { work.peer.0 < length self.old.plan.edges }
        ensures speaks { Speaks self.old self.new (L.calls link.old) (L.calls link.new) result (λ told. independent_hears_messages self.old.plan told self.old.me.0 work.peer messages.now (independent_seen self.old) (L.calls link.old)) }
        ensures all { OnOk result (ChangesOnly work.peer.0 (learns_messages self.old.plan self.old.me.0 work.peer messages.now (independent_seen self.old)) (independent_seen self.new)) }
        ensures front { HearsFront self.old.plan self.old.me.0 work.peer messages.now (independent_seen self.old) (independent_seen self.new) }
    {
        for place in 0..messages.len() {
            match self.hear_message(work, &messages[place], link) {
                Ok(()) => {}
                Err(stop) => return Err(stop),
            }
        }
        Ok(())
    }

    // All the PDUs that are held are heard.
    #[tactic(auto, using(crate::proofs::HearLemmas::at_got, crate::proofs::TellLemmas::same_calls, crate::proofs::ChangedLemmas::all_none, crate::proofs::ChangedLemmas::some_all))]
    fn hear_held<L: Link>(
        &mut self,
        receiver: &mut PeerStream,
        work: PeerWork,
        link: &mut L,
    ) -> Result<(), IndepStop>
        requires within { work.peer.0 < length self.old.plan.edges }
        ensures keeps { KeepsIndependent self.old self.new }
        ensures goes { CallsGoOn (L.calls link.old) (L.calls link.new) }
        ensures waits { OnOk result (IsReceiverWaiting receiver.new) }
        ensures all { OnOk result (HearsAll self.old.plan self.old.me.0 work.peer receiver.old.held receiver.new.held (independent_seen self.old) (independent_seen self.new)) }
        ensures some { HearsSome self.old.plan self.old.me.0 work.peer receiver.old.held (independent_seen self.old) (independent_seen self.new) }
        ensures step { (told : Answers) (more : List ℕ) → Agrees told (L.calls link.new) → AreOctets more
            → HearsTo self.old.plan told self.old.me.0 work.peer result receiver.new more (independent_seen self.new) (L.calls link.new) (hears_at self.old.plan told self.old.me.0 work.peer (receiver_of receiver.old) more (independent_seen self.old) (L.calls link.old)) }
    {
        'pdus: loop {
            match receiver.next(work.alloc) {
                Ok(Some(pdu)) => {
                    match self.hear_messages(work, pdu.messages.as_slice(), link) {
                        Ok(()) => {}
                        Err(stop) => return Err(stop),
                    }
                }
                Ok(None) => return Ok(()),
                Err(stop) => return Err(stop),
            }
        }
    }

    // Octets are heard behind those that are held; those behind the last PDU are then held.
    pub(crate) fn hear_octets<L: Link>(
        &mut self,
        receiver: &mut PeerStream,
        work: PeerWork,
        octets: &[u8],
        link: &mut L,
    ) -> Result<(), IndepStop>
        requires within { work.peer.0 < length self.old.plan.edges }
        ensures keeps { KeepsIndependent self.old self.new }
        ensures goes { CallsGoOn (L.calls link.old) (L.calls link.new) }
        ensures step { (told : Answers) → Agrees told (L.calls link.new)
            → Comes result (kept_after work.peer.0 receiver.new result (independent_seen self.new)) (L.calls link.new) (hears_at self.old.plan told self.old.me.0 work.peer (receiver_of receiver.old) octets.now (independent_seen self.old) (L.calls link.old)) }
        ensures some { HearsSome self.old.plan self.old.me.0 work.peer (receiver.old.held ++ octets.now) (independent_seen self.old) (independent_seen self.new) }
    {
        let mut at = 0;
        'hearing: loop {
            match self.hear_held(receiver, work, link) {
                Ok(()) => {}
                Err(stop) => return Err(stop),
            }
            if at == octets.len() {
                return Ok(());
            }
            at += receiver.feed_from(octets, at);
        }
    }

    // Takes out what the edge hears a peer with; none where nothing is heard.
    pub(crate) fn take_receiver(&mut self, peer: EdgeId) -> Option<PeerStream>
        requires within { peer.0 < length self.old.plan.edges }
        ensures keeps { KeepsIndependent self.old self.new }
        ensures step { IsTakenOut peer.0 (independent_seen self.old) (independent_seen self.new) result }
    {
        let Some(connection) = self.take_connection(peer) else {
            return None;
        };
        let (receiver, rest) = connection.take_receiver();
        self.put_connection(peer, Some(rest));
        receiver
    }

    // Puts it back.
    fn put_receiver(&mut self, peer: EdgeId, receiver: PeerStream)
        requires within { peer.0 < length self.old.plan.edges }
        ensures keeps { KeepsIndependent self.old self.new }
        ensures step { independent_seen self.new ≡ with_receiver peer.0 (receiver_of receiver) (independent_seen self.old) }
    {
        if let Some(connection) = self.take_connection(peer) {
            self.put_connection(peer, Some(connection.with_receiver(receiver)));
        }
    }

    // Puts it back where all was heard or refused; where a message was not taken, nothing more is heard.
    pub(crate) fn keep_receiver(
        &mut self,
        peer: EdgeId,
        receiver: PeerStream,
        heard: &Result<(), IndepStop>,
    )
        requires within { peer.0 < length self.old.plan.edges }
        ensures keeps { KeepsIndependent self.old self.new }
        ensures step { independent_seen self.new ≡ kept_after peer.0 receiver heard.now (independent_seen self.old) }
    {
        match heard {
            Ok(()) | Err(IndepStop::Refused(_)) => self.put_receiver(peer, receiver),
            Err(IndepStop::Link | IndepStop::NoMemory) => {}
        }
    }

    // The last status of a wire goes, where it is one with the peer.
    fn forget_place(&mut self, wire: usize, peer: EdgeId)
        requires { wire < length self.old.plan.wires }
        ensures keeps { KeepsIndependent self.old self.new }
        ensures with { is_between self.old.plan wire self.old.me.0 peer.0 ≡ true → independent_seen self.new ≡ with_remote wire None (independent_seen self.old) }
        ensures without { is_between self.old.plan wire self.old.me.0 peer.0 ≡ false → independent_seen self.new ≡ independent_seen self.old }
    {
        if self.is_with(wire, peer) {
            self.set_remote(wire, None);
        }
    }

    // The last statuses of the wires with a peer go.
    pub(crate) fn forget(&mut self, peer: EdgeId)
        ensures keeps { KeepsIndependent self.old self.new }
        ensures step { independent_seen self.new ≡ without_remotes (λ wire. is_between self.old.plan wire self.old.me.0 peer.0) (independent_seen self.old) }
    {
        let count = self.plan.wires.len();
        for wire in 0..count {
            self.forget_place(wire, peer);
        }
    }
}
