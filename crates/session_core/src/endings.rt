//! How a session of any state ends.
ghost use Rattle.std.specs.Prelude.{◌≡◌, [], ◌∷◌, Some};
ghost use Rattle.session_core.specs.{Parameters.{refusal_reason}, Reasons.{HasEnded}};
ghost use Rattle.session_core.specs.StatusCodes.{about, about_none, bad_ldp_identifier, data_of, keep_alive_timer_expired, shutdown};
ghost use Rattle.session_core.specs.Table.{data_refusing, reason_in};

use crate::notice::{
    BAD_LDP_IDENTIFIER, KEEP_ALIVE_TIMER_EXPIRED, SHUTDOWN, about, about_none, data_of,
};
use crate::refusal::Refusal;
use crate::{Ended, Replies, Reply, Session};
use ldp_codec::DecodeFault;
use ldp_grammar::{Message, StatusCode};
use net_base::Reason;

/// It ends and puts nothing.
pub fn ended(reason: Reason) -> (Session, Replies)
    ensures session { HasEnded result.0 reason }
    ensures replies { result.1 ≡ [] }
{
    (Session::Ended(Ended::by(reason)), Replies::none())
}

/// It puts this and ends.
pub fn ended_with(reason: Reason, reply: Reply) -> (Session, Replies)
    ensures session { HasEnded result.0 reason }
    ensures replies { result.1 ≡ reply ∷ [] }
{
    (Session::Ended(Ended::by(reason)), Replies::one(reply))
}

/// It ends by a message that its state does not expect (RFC 5036 section 2.5.4).
pub fn unexpected(message: &Message) -> (Session, Replies)
    ensures session { HasEnded result.0 Reason.Unexpected }
    ensures replies { result.1 ≡ about message.now shutdown ∷ [] }
{
    ended_with(Reason::Unexpected, about(message, SHUTDOWN))
}

/// It ends by a PDU of another sender (RFC 5036 section 3.5.1.2.1).
pub fn bad_identifier() -> (Session, Replies)
    ensures session { HasEnded result.0 Reason.BadIdentifier }
    ensures replies { result.1 ≡ about_none bad_ldp_identifier ∷ [] }
{
    ended_with(Reason::BadIdentifier, about_none(BAD_LDP_IDENTIFIER))
}

/// It ends as nothing was heard for the hold time (RFC 5036 section 2.5.6).
pub fn expired() -> (Session, Replies)
    ensures session { HasEnded result.0 Reason.Expired }
    ensures replies { result.1 ≡ about_none keep_alive_timer_expired ∷ [] }
{
    ended_with(Reason::Expired, about_none(KEEP_ALIVE_TIMER_EXPIRED))
}

/// It ends as what came is no PDU (RFC 5036 sections 3.5.1.2.1 and 3.5.1.2.2).
pub fn refused(fault: DecodeFault) -> (Ended, Replies)
    ensures reason { result.0 ≡ Reason.Decode }
    ensures replies { result.1 ≡ about_none (data_of fault) ∷ [] }
{
    (
        Ended::by(Reason::Decode),
        Replies::one(about_none(data_of(fault))),
    )
}

/// It ends as the message proposes what is refused (RFC 5036 section 3.5.3).
pub fn refused_proposal(refusal: Refusal, message: &Message) -> (Session, Replies)
    ensures session { HasEnded result.0 (refusal_reason refusal) }
    ensures replies { result.1 ≡ about message.now (data_refusing refusal) ∷ [] }
{
    ended_with(refusal.reason(), about(message, refusal.data()))
}

/// Why a Notification ends a session; `None` where it is not fatal (RFC 5036 section 3.5.1.1).
pub fn reason_in(status: &StatusCode) -> Option<Reason>
    ensures { result ≡ reason_in status.now }
{
    if !status.fatal {
        return None;
    }
    if status.code == SHUTDOWN {
        return Some(Reason::PeerShutdown);
    }
    Some(Reason::PeerFatal)
}
