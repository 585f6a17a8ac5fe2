//! The state in which no Initialization was sent or accepted.
ghost use Rattle.std.specs.Prelude.{◌≡◌, ◌↔◌, [], ◌∷◌, false, true, IsTrue, ◌&&◌, not, ℕ};
ghost use Rattle.net_base.specs.declared.trace.state_name.StateName.TheVariants as name;
ghost use Rattle.session_core.specs.declared.reply.Reply.TheVariants as reply;
ghost use Rattle.session_core.specs.Phase as phase;
ghost use Rattle.session_core.specs.Reasons.{expects, has_bad_receiver, has_bad_version, has_zero_time, HasEnded, is_acceptable, IsIn, proposes, tells_error, tells_shutdown};
ghost use Rattle.session_core.specs.{Session.{view_of}, State.{IsKept, Stands, in_phase, IsProper, opened, is_active}};
ghost use Rattle.session_core.specs.Table.{after, notified, reason_in, Received, said_replies, Start, view_after};
ghost use Rattle.ldp_grammar.specs.{declared.message.Message.{Message}, declared.message.Message.TheVariants.{Initialization}};

use crate::endings::{ended, reason_in, refused_proposal, unexpected};
use crate::parameters::{LONGEST_PDU, refusal_of};
use crate::stage::{Case, Stage};
use crate::standing::Standing;
use crate::{In, OpenRec, OpenSent, Peers, Replies, Reply, Session};
use ldp_grammar::{Message, SessionParams, StatusCode};
use net_base::Reason;

/// There is a connection, and no Initialization was sent or accepted (RFC 5036 section 2.5.4).
#[derive(Clone, Copy, PartialEq, Eq)]
pub struct Initialized;

impl Stage for Initialized {
    ghost use Rattle.session_core.specs.Phase as phase;

    ghost phase = { phase.Initialized };
}

impl Case for Initialized {
    fn session(standing: Standing) -> Session
        requires { IsKept phase.Initialized standing }
        ensures { view_of result ≡ Stands (in_phase phase.Initialized standing) }
    {
        Session::Initialized(In::entered(standing, Initialized))
    }

    fn is_agreed() -> bool
        ensures { result ≡ false }
    {
        false
    }
}

impl In<Initialized> {
    /// A connection of which nothing came yet. The two addresses differ, the KeepAlive Time is at least 3, and the Max PDU
    /// Length is 256 to 4096.
    pub fn new(peers: Peers) -> In<Initialized>
        requires { IsProper peers }
        ensures { in_phase phase.Initialized result ≡ opened peers }
    {
        let standing = Standing {
            peers,
            hold: peers.keepalive,
            max_pdu: LONGEST_PDU,
            wait: 0,
            silence: 0,
        };
        In::entered(standing, Initialized)
    }

    /// Sends the Initialization of this end, which is the active one (RFC 5036 section 2.5.3).
    pub fn start(self) -> (In<OpenSent>, Replies)
        requires { is_active self.peers ≡ true }
        ensures session { Stands (in_phase phase.OpenSent result.0) ≡ after phase.Initialized self Start }
        ensures replies { result.1 ≡ reply.Init ∷ [] }
    {
        (
            In::entered(self.standing(), OpenSent),
            Replies::one(Reply::Init),
        )
    }

    /// What comes of a message (RFC 5036 sections 2.5.4, 3.5.1.1 and 3.5.3). The passive end answers an acceptable
    /// Initialization by its own and a KeepAlive, and is then OpenRec; it refuses another one by a fatal Notification. A
    /// fatal Notification ends the session, and nothing is put; another one is passed over. Any other message is not
    /// expected: it is refused by a fatal Notification.
    pub fn on_message(self, message: &Message) -> (Session, Replies)
        ensures session { view_of result.0 ≡ after phase.Initialized self (Received message.now) }
        ensures replies { result.1 ≡ said_replies phase.Initialized self (Received message.now) }
        ensures accepts { IsIn result.0 name.OpenRec ↔ IsTrue (not (is_active self.peers) && proposes (is_acceptable self.peers) message.now) }
        ensures bad_version { HasEnded result.0 Reason.BadVersion ↔ IsTrue (not (is_active self.peers) && proposes has_bad_version message.now) }
        ensures bad_receiver { HasEnded result.0 Reason.BadReceiver ↔ IsTrue (not (is_active self.peers) && proposes (has_bad_receiver self.peers) message.now) }
        ensures zero_keep_alive { HasEnded result.0 Reason.ZeroKeepAlive ↔ IsTrue (not (is_active self.peers) && proposes (has_zero_time self.peers) message.now) }
        ensures unexpected { HasEnded result.0 Reason.Unexpected ↔ (expects phase.Initialized (is_active self.peers) message.now ≡ false) }
        ensures peer_shutdown { HasEnded result.0 Reason.PeerShutdown ↔ IsTrue (tells_shutdown message.now) }
        ensures peer_fatal { HasEnded result.0 Reason.PeerFatal ↔ IsTrue (tells_error message.now) }
    {
        self.by_row(message)
    }

    // The row of a message.
    fn by_row(self, message: &Message) -> (Session, Replies)
        ensures session { view_of result.0 ≡ after phase.Initialized self (Received message.now) }
        ensures replies { result.1 ≡ said_replies phase.Initialized self (Received message.now) }
    {
        match message {
            Message::Notification { status, .. } => self.on_notification(status),
            Message::Initialization { params, .. } => self.on_proposal(message, params),
            _ => unexpected(message),
        }
    }

    // What comes of a Notification.
    fn on_notification(self, status: &StatusCode) -> (Session, Replies)
        ensures session { (message : Message) → view_of result.0 ≡ view_after (in_phase phase.Initialized self) (notified (reason_in status.now) (in_phase phase.Initialized self) message) }
        ensures replies { result.1 ≡ [] }
    {
        match reason_in(status) {
            None => (Session::Initialized(self), Replies::none()),
            Some(reason) => ended(reason),
        }
    }

    // What comes of a proposal in the message.
    fn on_proposal(self, message: &Message, params: &SessionParams) -> (Session, Replies)
        ensures session { (id : ℕ) → message.now ≡ Initialization id params.now → view_of result.0 ≡ after phase.Initialized self (Received message.now) }
        ensures replies { (id : ℕ) → message.now ≡ Initialization id params.now → result.1 ≡ said_replies phase.Initialized self (Received message.now) }
    {
        let standing = self.standing();
        if standing.peers.is_active() {
            return unexpected(message);
        }
        match refusal_of(&standing.peers, params) {
            Some(refusal) => refused_proposal(refusal, message),
            None => (
                Session::OpenRec(In::entered(standing.agreed(params), OpenRec)),
                Replies::two(Reply::Init, Reply::KeepAlive),
            ),
        }
    }
}
