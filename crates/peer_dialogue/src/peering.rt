//! What an edge keeps of a neighbour.
ghost use Rattle.std.specs.Prelude.{◌≡◌, ◌≤◌, [], length, IfOk, OnOk, Some, None};
ghost use Rattle.net_base.specs.declared.trace.state_name.Reason.TheVariants as reason;
ghost use Rattle.ldp_codec.specs.declared.decode_fault.DecodeFault.{DecodeFault};
ghost use Rattle.session_core.specs.{Messages.{HasData}, Session.{phase_name, view_of}, State.{IsProper}};
ghost use Rattle.session_core.specs.{Table.{Closed, Refused, view_next, view_said}, Ticks.{quiet_ticks}};
ghost use Rattle.pw_messages.specs.LinkAnswers.{Agrees, Answers};
ghost use Rattle.edge_model.specs.{Hear.{is_up_phase}, Put.{put_reply}, Session.{had_put, happens}, State.{EdgeState}};
ghost use Rattle.peer_dialogue.specs.{AtWork.{WorkGoes}, Event.{MayHappen, event_of}};
ghost use Rattle.peer_dialogue.specs.Peering.{at_peer, connection_with, had_spoken, is_over, peering_later, put_message};
ghost use Rattle.peer_dialogue.specs.PwMessage.{CanBeSaid, numbered};

use crate::at_work::AtWork;
use crate::held::Held;
use crate::moved::{Moved, end};
use crate::peer_event::PeerEvent;
use crate::pw_message::PwMessage;
use crate::speaker::Speaker;
use net_base::{EdgeId, Link, NoMemory, Reason, StateName};
use session_core::{In, Peers, Replies, Reply, Session};
use std::marker::Model;
use std::mem;

/// What an edge keeps of a neighbour as long as its end of their connection stands: the session, which stands, who puts its
/// messages, and the octets that are held. Contracts see it as what `edge_model` keeps.
#[derive(Drop)]
pub struct Peering {
    pub(crate) session: Session,
    pub(crate) speaker: Speaker,
    pub(crate) held: Held,
}

impl Model for Peering {
    ghost use Rattle.session_core.specs.Session.{view_of};
    ghost use Rattle.edge_model.specs.State.{Peering};
    ghost use Rattle.peer_dialogue.specs.Peering.{StandsBetween, state_of};

    ghost Value = { Peering };

    ghost view = { λ p. record { session = state_of p.speaker.peers (view_of p.session); held = p.held; next_id = p.speaker.next_id } };

    ghost invariant = { λ p. StandsBetween p.speaker.peers (view_of p.session) };
}

impl Peering {
    /// A connection of which nothing came yet; messages are numbered from 1, and no octets are held.
    pub fn open(peers: Peers) -> Peering
        requires { IsProper peers }
        ensures { result ≡ connection_with peers }
    {
        Peering {
            session: Session::Initialized(In::new(peers)),
            speaker: Speaker { peers, next_id: 1 },
            held: Held::none(),
        }
    }

    /// The name of the session's state.
    #[inline(always)]
    pub fn state(&self) -> StateName
        ensures { result ≡ phase_name self.now.session.phase }
    {
        self.session.state()
    }

    /// Whether the session is up.
    #[inline(always)]
    pub fn is_up(&self) -> bool
        ensures { result ≡ is_up_phase self.now.session.phase }
    {
        matches!(self.session, Session::Operational(_))
    }

    /// The most that a PDU Length may be, 256 to 4096 octets (RFC 5036 section 3.5.3).
    #[inline(always)]
    pub fn max_pdu(&self) -> u16
        ensures value { result ≡ self.now.session.max_pdu }
        ensures least { 256 ≤ result }
        ensures longest { result ≤ 4096 }
    {
        match self.session.max_pdu() {
            Some(max) => max,
            None => 4096,
        }
    }

    /// How many octets are held.
    #[inline(always)]
    pub fn held(&self) -> usize
        ensures count { result ≡ length self.now.held }
        ensures within { result ≤ 4100 }
    {
        self.held.len()
    }

    /// Takes out the octets that are held, so that none are.
    #[inline(always)]
    pub fn take_held(&mut self) -> Held
        ensures taken { result ≡ self.old.held }
        ensures rest { self.new ≡ record self.old { held = [] } }
    {
        mem::replace(&mut self.held, Held::none())
    }

    /// Holds these octets, in the place of those that were held.
    #[inline(always)]
    pub fn hold(&mut self, held: Held)
        ensures { self.new ≡ record self.old { held = held } }
    {
        self.held = held;
    }

    /// How many ticks pass before one that ends the session, or at which a KeepAlive is to be put (RFC 5036 section 2.5.6).
    #[inline(always)]
    pub fn quiet(&self) -> u64
        ensures { result ≡ quiet_ticks self.now.session }
    {
        self.session.quiet()
    }

    /// So many ticks pass, at which nothing is to be done.
    #[tactic(auto, using(crate::proofs::TickLemmas::stands_later))]
    pub fn pass(&mut self, ticks: u64)
        requires { ticks ≤ quiet_ticks self.old.session }
        ensures { self.new ≡ peering_later ticks self.old }
    {
        self.session.pass(ticks);
    }

    /// What is left once something happened to the session: nothing, where that ends it.
    pub fn happens<L: Link>(
        self,
        peer: EdgeId,
        event: PeerEvent<'_>,
        work: &mut AtWork<'_, L>,
    ) -> Result<Option<Peering>, NoMemory>
        requires { MayHappen event }
        ensures goes { WorkGoes L.calls work.old work.new }
        ensures refused { IfOk result (λ left. (wrong : DecodeFault) → event_of event.entry ≡ Refused wrong → left ≡ None) }
        ensures step { IfOk result (λ left. (told : Answers) (edge : EdgeState) → Agrees told (L.calls work.new.link.now)
            → at_peer peer left edge (L.calls work.new.link.now) work.new.effects.now.list ≡ happens told peer (event_of event.entry) (at_peer peer (Some self) edge (L.calls work.old.link.now) work.old.effects.now.list)) }
    {
        let Peering {
            session,
            mut speaker,
            held,
        } = self;
        let before = session.state();
        let (session, replies) = after(session, event);
        let put = speaker.put_replies(peer, &replies, work)?;
        let moved = Moved {
            before,
            session,
            put,
            speaker,
            held,
        };
        moved.settle(peer, work)
    }

    /// What is left once a reply was put: nothing, where the link did not take it.
    pub fn put<L: Link>(
        self,
        peer: EdgeId,
        reply: Reply,
        work: &mut AtWork<'_, L>,
    ) -> Result<Option<Peering>, NoMemory>
        requires { HasData reply }
        ensures goes { WorkGoes L.calls work.old work.new }
        ensures step { IfOk result (λ left. (told : Answers) (edge : EdgeState) → Agrees told (L.calls work.new.link.now)
            → at_peer peer left edge (L.calls work.new.link.now) work.new.effects.now.list ≡ had_put peer (put_reply told peer reply (at_peer peer (Some self) edge (L.calls work.old.link.now) work.old.effects.now.list))) }
    {
        let Peering {
            session,
            mut speaker,
            held,
        } = self;
        if speaker.put_reply(peer, reply, work)? {
            return Ok(Some(Peering {
                session: session.spoke(),
                speaker,
                held,
            }));
        }
        end(peer, Reason::LinkFault, work)?;
        Ok(None)
    }

    /// What is left once a message about a pseudowire was put: nothing, where the link did not take it.
    pub fn say<L: Link>(
        self,
        peer: EdgeId,
        message: &PwMessage<'_>,
        work: &mut AtWork<'_, L>,
    ) -> Result<Option<Peering>, NoMemory>
        requires { CanBeSaid message.now }
        ensures goes { WorkGoes L.calls work.old work.new }
        ensures step { IfOk result (λ left. (told : Answers) (edge : EdgeState) → Agrees told (L.calls work.new.link.now)
            → record { work = at_peer peer left edge (L.calls work.new.link.now) work.new.effects.now.list; failed = is_over left }
            ≡ had_spoken peer (put_message told peer (numbered message.now) (at_peer peer (Some self) edge (L.calls work.old.link.now) work.old.effects.now.list))) }
    {
        let Peering {
            session,
            mut speaker,
            held,
        } = self;
        if speaker.say(peer, message, work)? {
            return Ok(Some(Peering {
                session: session.spoke(),
                speaker,
                held,
            }));
        }
        end(peer, Reason::LinkFault, work)?;
        Ok(None)
    }

    /// The connection is lost, and so the session ends.
    pub fn lose<L: Link>(self, peer: EdgeId, work: &mut AtWork<'_, L>) -> Result<(), NoMemory>
        ensures goes { WorkGoes L.calls work.old work.new }
        ensures step { OnOk result ((told : Answers) (edge : EdgeState)
            → at_peer peer None edge (L.calls work.new.link.now) work.new.effects.now.list ≡ happens told peer (Closed reason.Closed) (at_peer peer (Some self) edge (L.calls work.old.link.now) work.old.effects.now.list)) }
    {
        end(peer, Reason::Closed, work)
    }
}

// The session after an event, and what is put.
fn after(session: Session, event: PeerEvent<'_>) -> (Session, Replies)
    requires { MayHappen event }
    ensures session { view_of result.0 ≡ view_next (view_of session) (event_of event.entry) }
    ensures replies { result.1 ≡ view_said (view_of session) (event_of event.entry) }
{
    match event {
        PeerEvent::Start => session.start(),
        PeerEvent::Heard(sender) => session.heard(sender),
        PeerEvent::Received(message) => session.on_message(message),
        PeerEvent::Refused(fault) => session.refused(fault),
        PeerEvent::Ticked => session.tick(),
    }
}
