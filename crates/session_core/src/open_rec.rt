//! The state in which the peer's Initialization was accepted.
ghost use Rattle.std.specs.Prelude.{true, ◌≡◌, ◌↔◌, [], false, IsTrue, ◌<◌};
ghost use Rattle.net_base.specs.declared.trace.state_name.StateName.TheVariants as name;
ghost use Rattle.ldp_grammar.specs.declared.message.Message.{Message};
ghost use Rattle.session_core.specs.Reasons.{expects, HasEnded, is_keep_alive, IsIn, tells_error, tells_shutdown};
ghost use Rattle.session_core.specs.Phase as phase;
ghost use Rattle.session_core.specs.{Session.{view_of}, State.{IsKept, Stands, in_phase, is_active}};
ghost use Rattle.session_core.specs.Table.{after, notified, reason_in, Received, said_replies, view_after};

use crate::endings::{ended, reason_in, unexpected};
use crate::stage::{Case, Stage};
use crate::standing::Standing;
use crate::{In, Operational, Replies, Session};
use ldp_grammar::{Message, StatusCode};
use net_base::Reason;

/// The peer's Initialization was accepted, and a KeepAlive is awaited (RFC 5036 section 2.5.4).
#[derive(Clone, Copy, PartialEq, Eq)]
pub struct OpenRec;

impl Stage for OpenRec {
    ghost use Rattle.session_core.specs.Phase as phase;

    ghost phase = { phase.OpenRec };
}

impl Case for OpenRec {
    fn session(standing: Standing) -> Session
        requires { IsKept phase.OpenRec standing }
        ensures { view_of result ≡ Stands (in_phase phase.OpenRec standing) }
    {
        Session::OpenRec(In::entered(standing, OpenRec))
    }

    fn is_agreed() -> bool
        ensures { result ≡ true }
    {
        true
    }
}

impl In<OpenRec> {
    /// What comes of a message (RFC 5036 sections 2.5.4 and 3.5.1.1). A KeepAlive brings the session up. A fatal Notification
    /// ends it, and nothing is put; another one is passed over. Any other message is not expected: it is refused by a fatal
    /// Notification.
    pub fn on_message(self, message: &Message) -> (Session, Replies)
        ensures session { view_of result.0 ≡ after phase.OpenRec self (Received message.now) }
        ensures replies { result.1 ≡ said_replies phase.OpenRec self (Received message.now) }
        ensures up { IsIn result.0 name.Operational ↔ IsTrue (is_keep_alive message.now) }
        ensures unexpected { HasEnded result.0 Reason.Unexpected ↔ (expects phase.OpenRec (is_active self.peers) message.now ≡ false) }
        ensures peer_shutdown { HasEnded result.0 Reason.PeerShutdown ↔ IsTrue (tells_shutdown message.now) }
        ensures peer_fatal { HasEnded result.0 Reason.PeerFatal ↔ IsTrue (tells_error message.now) }
    {
        self.by_row(message)
    }

    // The row of a message.
    fn by_row(self, message: &Message) -> (Session, Replies)
        ensures session { view_of result.0 ≡ after phase.OpenRec self (Received message.now) }
        ensures replies { result.1 ≡ said_replies phase.OpenRec self (Received message.now) }
    {
        match message {
            Message::Notification { status, .. } => self.on_notification(status),
            Message::KeepAlive { .. } => (
                Session::Operational(In::entered(self.standing(), Operational)),
                Replies::none(),
            ),
            _ => unexpected(message),
        }
    }

    // What comes of a Notification.
    fn on_notification(self, status: &StatusCode) -> (Session, Replies)
        ensures session { (message : Message) → view_of result.0 ≡ view_after (in_phase phase.OpenRec self) (notified (reason_in status.now) (in_phase phase.OpenRec self) message) }
        ensures replies { result.1 ≡ [] }
    {
        match reason_in(status) {
            None => (Session::OpenRec(self), Replies::none()),
            Some(reason) => ended(reason),
        }
    }
}
