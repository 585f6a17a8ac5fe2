//! What holds of the table of a session, and of every run of events.
ghost use Rattle.session_core.specs.Messages.{RepliesArePut};
ghost use Rattle.session_core.specs.Laws.{EndsAgree, EnteredByMessages, NeverSilent, OneNotice, ReasonsByCause, WithinProposals};

/// A session that ends puts one fatal Notification, or nothing: nothing where the peer ended it or the connection is lost,
/// except that a shutdown is answered where the session is up (RFC 5036 sections 2.5.4 and 3.5.1.1).
pub fn one_notice_at_most()
    ensures { OneNotice }
{}

/// Each reason comes by its own kind of event: BadIdentifier by the sender of a PDU, Decode by octets that are refused,
/// Expired by a tick, Closed and LinkFault by a connection that closes, and the others by a message.
pub fn reasons_by_cause()
    ensures { ReasonsByCause }
{}

/// A session is up only by a KeepAlive that came in OpenRec, and is in OpenRec only by an acceptable Initialization that came
/// before (RFC 5036 section 2.5.4).
pub fn entered_by_messages()
    ensures { EnteredByMessages }
{}

/// Whatever comes, the hold time never exceeds the KeepAlive Time that this end proposed, nor, once an Initialization was
/// accepted, the longest PDU its own proposal; and the longest PDU has 256 to 4096 octets (RFC 5036 section 3.5.3).
pub fn within_proposals()
    ensures { WithinProposals }
{}

/// Where what is to be put is put at once, a session is never silent for a third of its hold time, whatever comes, once an
/// Initialization was accepted (RFC 5036 section 2.5.6).
pub fn never_silent()
    ensures { NeverSilent }
{}

/// Two ends that face each other agree: one of them is active, each accepts what the other proposes, and whatever comes, as
/// long as each Initialization is the other's, once one was accepted both have the same hold time and the same longest PDU.
/// The other's Initialization and a KeepAlive bring an end up (RFC 5036 sections 2.5.2 to 2.5.4 and 3.5.3).
pub fn ends_agree()
    ensures { EndsAgree }
{}

/// Whatever is put by an event can be written, and a PDU with it alone has a PDU Length of at most 256, which every maximum
/// of a session allows (RFC 5036 section 3.5.3).
pub fn replies_are_put()
    ensures { RepliesArePut }
{}
