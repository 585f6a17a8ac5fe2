//! The state in which the active end waits for the peer's Initialization.
ghost use Rattle.std.specs.Prelude.{◌≡◌, ◌↔◌, [], ◌∷◌, false, IsTrue};
ghost use Rattle.net_base.specs.declared.trace.state_name.StateName.TheVariants as name;
ghost use Rattle.session_core.specs.Parameters.{proposal_refusal};
ghost use Rattle.session_core.specs.declared.reply.Reply.TheVariants as reply;
ghost use Rattle.session_core.specs.Phase as phase;
ghost use Rattle.session_core.specs.Reasons.{expects, has_bad_receiver, has_bad_version, has_zero_time, HasEnded, is_acceptable, IsIn, proposes, tells_error, tells_shutdown};
ghost use Rattle.session_core.specs.{Session.{view_of}, State.{IsKept, Stands, in_phase, is_active}};
ghost use Rattle.session_core.specs.Table.{after, judged, notified, reason_in, Received, replies_of, said_replies, view_after};
ghost use Rattle.ldp_grammar.specs.declared.message.Message.{Message};

use crate::endings::{ended, reason_in, refused_proposal, unexpected};
use crate::parameters::refusal_of;
use crate::stage::{Case, Stage};
use crate::standing::Standing;
use crate::{In, OpenRec, Replies, Reply, Session};
use ldp_grammar::{Message, SessionParams, StatusCode};
use net_base::Reason;

/// The active end sent its Initialization (RFC 5036 section 2.5.4).
#[derive(Clone, Copy, PartialEq, Eq)]
pub struct OpenSent;

impl Stage for OpenSent {
    ghost use Rattle.session_core.specs.Phase as phase;

    ghost phase = { phase.OpenSent };
}

impl Case for OpenSent {
    fn session(standing: Standing) -> Session
        requires { IsKept phase.OpenSent standing }
        ensures { view_of result ≡ Stands (in_phase phase.OpenSent standing) }
    {
        Session::OpenSent(In::entered(standing, OpenSent))
    }

    fn is_agreed() -> bool
        ensures { result ≡ false }
    {
        false
    }
}

impl In<OpenSent> {
    /// What comes of a message (RFC 5036 sections 2.5.4, 3.5.1.1 and 3.5.3). An acceptable Initialization is answered by a
    /// KeepAlive, and the session is then OpenRec; another one is refused by a fatal Notification. A fatal Notification ends
    /// the session, and nothing is put; another one is passed over. Any other message is not expected: it is refused by a
    /// fatal Notification.
    pub fn on_message(self, message: &Message) -> (Session, Replies)
        ensures session { view_of result.0 ≡ after phase.OpenSent self (Received message.now) }
        ensures replies { result.1 ≡ said_replies phase.OpenSent self (Received message.now) }
        ensures accepts { IsIn result.0 name.OpenRec ↔ IsTrue (proposes (is_acceptable self.peers) message.now) }
        ensures bad_version { HasEnded result.0 Reason.BadVersion ↔ IsTrue (proposes has_bad_version message.now) }
        ensures bad_receiver { HasEnded result.0 Reason.BadReceiver ↔ IsTrue (proposes (has_bad_receiver self.peers) message.now) }
        ensures zero_keep_alive { HasEnded result.0 Reason.ZeroKeepAlive ↔ IsTrue (proposes (has_zero_time self.peers) message.now) }
        ensures unexpected { HasEnded result.0 Reason.Unexpected ↔ (expects phase.OpenSent (is_active self.peers) message.now ≡ false) }
        ensures peer_shutdown { HasEnded result.0 Reason.PeerShutdown ↔ IsTrue (tells_shutdown message.now) }
        ensures peer_fatal { HasEnded result.0 Reason.PeerFatal ↔ IsTrue (tells_error message.now) }
    {
        self.by_row(message)
    }

    // The row of a message.
    fn by_row(self, message: &Message) -> (Session, Replies)
        ensures session { view_of result.0 ≡ after phase.OpenSent self (Received message.now) }
        ensures replies { result.1 ≡ said_replies phase.OpenSent self (Received message.now) }
    {
        match message {
            Message::Notification { status, .. } => self.on_notification(status),
            Message::Initialization { params, .. } => self.on_proposal(message, params),
            _ => unexpected(message),
        }
    }

    // What comes of a Notification.
    fn on_notification(self, status: &StatusCode) -> (Session, Replies)
        ensures session { (message : Message) → view_of result.0 ≡ view_after (in_phase phase.OpenSent self) (notified (reason_in status.now) (in_phase phase.OpenSent self) message) }
        ensures replies { result.1 ≡ [] }
    {
        match reason_in(status) {
            None => (Session::OpenSent(self), Replies::none()),
            Some(reason) => ended(reason),
        }
    }

    // What comes of a proposal in the message.
    fn on_proposal(self, message: &Message, params: &SessionParams) -> (Session, Replies)
        ensures session { view_of result.0 ≡ view_after (in_phase phase.OpenSent self) (judged (proposal_refusal self.peers params.now) (in_phase phase.OpenSent self) message.now params.now (reply.KeepAlive ∷ [])) }
        ensures replies { result.1 ≡ replies_of (judged (proposal_refusal self.peers params.now) (in_phase phase.OpenSent self) message.now params.now (reply.KeepAlive ∷ [])) }
    {
        let standing = self.standing();
        match refusal_of(&standing.peers, params) {
            Some(refusal) => refused_proposal(refusal, message),
            None => (
                Session::OpenRec(In::entered(standing.agreed(params), OpenRec)),
                Replies::one(Reply::KeepAlive),
            ),
        }
    }
}
