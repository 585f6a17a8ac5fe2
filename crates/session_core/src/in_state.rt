//! A session that stands, in the state that its type tells.
ghost use Rattle.std.specs.Prelude.{◌≡◌, ◌≢◌, ◌↔◌, ◌⊎◌, ◌≤◌, ◌<◌, ◌+◌, [], ◌∷◌, false, true};
ghost use Rattle.session_core.specs.{Phase.{is_agreed}, Parameters.{is_platform}};
ghost use Rattle.session_core.specs.declared.reply.Reply.TheVariants as reply;
ghost use Rattle.session_core.specs.{Reasons.{HasEnded}, Session.{view_of}, State.{EndedBy, IsKept, Stands, in_phase}};
ghost use Rattle.session_core.specs.StatusCodes.{about_none, data_of};
ghost use Rattle.session_core.specs.Table.{after, Closed, Heard, Refused, said_replies, Spoke, third, Ticked};
ghost use Rattle.session_core.specs.Ticks.{quiet_ticks, ticks_later};

use crate::endings::{bad_identifier, expired, refused};
use crate::stage::{Case, Stage};
use crate::standing::Standing;
use crate::{Ended, Replies, Session};
use ldp_codec::DecodeFault;
use ldp_grammar::LdpId;
use net_base::Reason;
use std::marker::Model;

/// A session that stands, in the state `S` (RFC 5036 section 2.5.4). Contracts see it as what the session has, a `Standing`.
/// The calls here are those that every state has.
#[derive(Drop)]
pub struct In<S: Stage> {
    standing: Standing,
    stage: S,
}

impl<S: Stage> Model for In<S> {
    ghost use Rattle.session_core.specs.{State.{IsKept}, declared.standing.Standing.{Standing}};

    ghost Value = { Standing };

    ghost view = { λ s. s.standing };

    ghost invariant = { λ s. IsKept S.phase s.standing };
}

impl<S: Stage> In<S> {
    // The session that has this, in this state.
    pub(crate) fn entered(standing: Standing, stage: S) -> In<S>
        requires { IsKept S.phase standing }
        ensures { result ≡ standing }
    {
        In { standing, stage }
    }

    // What the session has.
    pub(crate) fn standing(&self) -> Standing
        ensures value { result ≡ self.now }
        ensures kept { IsKept S.phase result }
    {
        self.standing
    }
}

impl<S: Case> In<S> {
    /// A PDU of the sender came. The session ends by a fatal Notification exactly where the sender is not the peer with
    /// label space 0 (RFC 5036 section 3.5.1.2.1); else no tick has passed since.
    pub fn heard(self, sender: LdpId) -> (Session, Replies)
        ensures session { view_of result.0 ≡ after S.phase self (Heard sender) }
        ensures replies { result.1 ≡ said_replies S.phase self (Heard sender) }
        ensures bad_identifier { HasEnded result.0 Reason.BadIdentifier ↔ (is_platform self.peers.peer sender ≡ false) }
    {
        match self.standing.heard(sender) {
            Some(standing) => (S::session(standing), Replies::none()),
            None => bad_identifier(),
        }
    }

    /// What came from the peer is no PDU: the session ends, and a fatal Notification tells the fault (RFC 5036 sections
    /// 3.5.1.2.1 and 3.5.1.2.2). The fault is not want of memory.
    pub fn refused(self, fault: DecodeFault) -> (Ended, Replies)
        requires { fault ≢ DecodeFault.NoMemory }
        ensures decode { result.0 ≡ Reason.Decode }
        ensures session { EndedBy result.0 ≡ after S.phase self (Refused fault) }
        ensures replies { result.1 ≡ about_none (data_of fault) ∷ [] }
    {
        refused(fault)
    }

    /// Something was put to the peer: no tick has passed since.
    pub fn spoke(self) -> Self
        ensures session { Stands (in_phase S.phase result) ≡ after S.phase self Spoke }
    {
        In {
            standing: self.standing.spoke(),
            stage: self.stage,
        }
    }

    /// A tick passes (RFC 5036 section 2.5.6). The session ends by a fatal Notification exactly where nothing was then heard
    /// for the hold time. Else a KeepAlive is put exactly where an Initialization was accepted, and nothing was put for a
    /// third of the hold time, rounded down and at least one tick.
    pub fn tick(self) -> (Session, Replies)
        ensures session { view_of result.0 ≡ after S.phase self Ticked }
        ensures replies { result.1 ≡ said_replies S.phase self Ticked }
        ensures expired { HasEnded result.0 Reason.Expired ↔ (self.hold ≤ self.wait + 1) }
        ensures keep_alive { (result.1 ≡ reply.KeepAlive ∷ []) ↔ ((is_agreed S.phase ≡ true) × (self.wait + 1 < self.hold) × (third self.hold ≤ self.silence + 1)) }
    {
        match self.standing.later() {
            Some(standing) => {
                let replies = standing.due(S::is_agreed());
                (S::session(standing), replies)
            }
            None => expired(),
        }
    }

    /// How many ticks pass before one that ends the session, or at which a KeepAlive is to be put (RFC 5036 section 2.5.6).
    pub fn quiet(&self) -> u64
        ensures { result ≡ quiet_ticks (in_phase S.phase self.now) }
    {
        self.standing.quiet(S::is_agreed())
    }

    /// So many ticks pass, at which nothing is to be done.
    pub fn pass(&mut self, ticks: u64)
        requires { ticks ≤ quiet_ticks (in_phase S.phase self.old) }
        ensures { in_phase S.phase self.new ≡ ticks_later ticks (in_phase S.phase self.old) }
    {
        self.standing.pass(ticks);
    }

    /// The connection was lost, or the link did not take a PDU, as the reason says. Nothing is put.
    pub fn closed(self, reason: Reason) -> Ended
        requires { (reason ≡ Reason.Closed) ⊎ (reason ≡ Reason.LinkFault) }
        ensures reason { result ≡ reason }
        ensures session { EndedBy result ≡ after S.phase self (Closed reason) }
    {
        Ended::by(reason)
    }

    /// The most that a PDU Length may be, 256 to 4096 octets (RFC 5036 section 3.5.3): 4096 as long as no Initialization
    /// was accepted, and then the smaller of the two that were proposed.
    pub fn max_pdu(&self) -> u16
        ensures value { result ≡ self.now.max_pdu }
        ensures least { 256 ≤ result }
        ensures longest { result ≤ 4096 }
        ensures own { is_agreed S.phase ≡ false → result ≡ 4096 }
        ensures agreed { is_agreed S.phase ≡ true → result ≤ self.now.peers.max_pdu }
    {
        self.standing.max_pdu
    }

    /// The hold time in ticks (RFC 5036 section 3.5.3): the KeepAlive Time that this end proposes, as long as no
    /// Initialization was accepted, and then the smaller of the two that were proposed.
    pub fn hold(&self) -> u16
        ensures value { result ≡ self.now.hold }
        ensures some { 1 ≤ result }
        ensures within { result ≤ self.now.peers.keepalive }
        ensures own { is_agreed S.phase ≡ false → result ≡ self.now.peers.keepalive }
    {
        self.standing.hold
    }
}
