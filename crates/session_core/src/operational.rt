//! The state in which the session is up.
ghost use Rattle.std.specs.Prelude.{true, ◌≡◌, ◌↔◌, false, IsTrue, ◌<◌};
ghost use Rattle.net_base.specs.declared.trace.state_name.StateName.TheVariants as name;
ghost use Rattle.session_core.specs.Reasons.{expects, HasEnded, is_fatal, IsIn, tells_error, tells_shutdown};
ghost use Rattle.session_core.specs.Phase as phase;
ghost use Rattle.session_core.specs.{Session.{view_of}, State.{IsKept, Stands, in_phase, is_active}};
ghost use Rattle.session_core.specs.Table.{after, notified, reason_in, Received, replies_of, said_replies, view_after};

use crate::endings::{ended, ended_with, reason_in};
use crate::notice::{SHUTDOWN, about};
use crate::stage::{Case, Stage};
use crate::standing::Standing;
use crate::{In, Replies, Session};
use ldp_grammar::{Message, StatusCode};
use net_base::Reason;

/// The session is up (RFC 5036 section 2.5.4).
#[derive(Clone, Copy, PartialEq, Eq)]
pub struct Operational;

impl Stage for Operational {
    ghost use Rattle.session_core.specs.Phase as phase;

    ghost phase = { phase.Operational };
}

impl Case for Operational {
    fn session(standing: Standing) -> Session
        requires { IsKept phase.Operational standing }
        ensures { view_of result ≡ Stands (in_phase phase.Operational standing) }
    {
        Session::Operational(In::entered(standing, Operational))
    }

    fn is_agreed() -> bool
        ensures { result ≡ true }
    {
        true
    }
}

impl In<Operational> {
    /// What comes of a message (RFC 5036 sections 2.5.4 and 3.5.1.1). A fatal Notification ends the session; a shutdown among
    /// them is answered by one. Every other message leaves the session as it is: what else it brings about is no matter of
    /// the session.
    pub fn on_message(self, message: &Message) -> (Session, Replies)
        ensures session { view_of result.0 ≡ after phase.Operational self (Received message.now) }
        ensures replies { result.1 ≡ said_replies phase.Operational self (Received message.now) }
        ensures unexpected { HasEnded result.0 Reason.Unexpected ↔ (expects phase.Operational (is_active self.peers) message.now ≡ false) }
        ensures stays { IsIn result.0 name.Operational ↔ (is_fatal message.now ≡ false) }
        ensures peer_shutdown { HasEnded result.0 Reason.PeerShutdown ↔ IsTrue (tells_shutdown message.now) }
        ensures peer_fatal { HasEnded result.0 Reason.PeerFatal ↔ IsTrue (tells_error message.now) }
    {
        self.by_row(message)
    }

    // The row of a message.
    fn by_row(self, message: &Message) -> (Session, Replies)
        ensures session { view_of result.0 ≡ after phase.Operational self (Received message.now) }
        ensures replies { result.1 ≡ said_replies phase.Operational self (Received message.now) }
    {
        match message {
            Message::Notification { status, .. } => self.on_notification(message, status),
            _ => (Session::Operational(self), Replies::none()),
        }
    }

    // What comes of a Notification.
    fn on_notification(self, message: &Message, status: &StatusCode) -> (Session, Replies)
        ensures session { view_of result.0 ≡ view_after (in_phase phase.Operational self) (notified (reason_in status.now) (in_phase phase.Operational self) message.now) }
        ensures replies { result.1 ≡ replies_of (notified (reason_in status.now) (in_phase phase.Operational self) message.now) }
    {
        match reason_in(status) {
            None => (Session::Operational(self), Replies::none()),
            Some(Reason::PeerShutdown) => {
                ended_with(Reason::PeerShutdown, about(message, SHUTDOWN))
            }
            Some(reason) => ended(reason),
        }
    }
}
