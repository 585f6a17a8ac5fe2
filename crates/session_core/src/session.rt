//! A session of any state.
ghost use Rattle.std.specs.Prelude.{◌≡◌, ◌≢◌, ◌⊎◌, ◌≤◌, IfSome};
ghost use Rattle.session_core.specs.Session.{hold_of, max_pdu_of, name_of, view_of};
ghost use Rattle.session_core.specs.Table.{Closed, Heard, Received, Refused, Spoke, Start, Ticked, view_next, view_said};
ghost use Rattle.session_core.specs.Ticks.{quiet_of, view_later};

use crate::{Ended, In, Initialized, OpenRec, OpenSent, Operational, Replies};
use ldp_codec::DecodeFault;
use ldp_grammar::{LdpId, Message};
use net_base::{Reason, StateName};

/// An LDP session (RFC 5036 section 2.5.4), in the state that its type tells. The calls here are those of each state; a
/// session that ended stays as it is, and puts nothing.
#[derive(Drop)]
pub enum Session {
    /// There is a connection, and no Initialization was sent or accepted.
    Initialized(In<Initialized>),
    /// The active end sent its Initialization.
    OpenSent(In<OpenSent>),
    /// The peer's Initialization was accepted.
    OpenRec(In<OpenRec>),
    /// The session is up.
    Operational(In<Operational>),
    /// The session ended.
    Ended(Ended),
}

impl Session {
    /// The name of the state.
    pub fn state(&self) -> StateName
        ensures { result ≡ name_of (view_of self.now) }
    {
        match self {
            Session::Initialized(_) => StateName::Initialized,
            Session::OpenSent(_) => StateName::OpenSent,
            Session::OpenRec(_) => StateName::OpenRec,
            Session::Operational(_) => StateName::Operational,
            Session::Ended(ended) => StateName::Ended(ended.reason()),
        }
    }

    /// Sends the Initialization of this end, where it is the active one and sent none yet (RFC 5036 section 2.5.3). Else
    /// nothing is put, and the session stays as it is.
    pub fn start(self) -> (Session, Replies)
        ensures session { view_of result.0 ≡ view_next (view_of self) Start }
        ensures replies { result.1 ≡ view_said (view_of self) Start }
    {
        match self {
            Session::Initialized(state) if state.standing().peers.is_active() => {
                let (started, replies) = state.start();
                (Session::OpenSent(started), replies)
            }
            session => (session, Replies::none()),
        }
    }

    /// What comes of a message (RFC 5036 sections 2.5.4, 3.5.1.1 and 3.5.3), as the call of the state says.
    pub fn on_message(self, message: &Message) -> (Session, Replies)
        ensures session { view_of result.0 ≡ view_next (view_of self) (Received message.now) }
        ensures replies { result.1 ≡ view_said (view_of self) (Received message.now) }
    {
        match self {
            Session::Initialized(state) => state.on_message(message),
            Session::OpenSent(state) => state.on_message(message),
            Session::OpenRec(state) => state.on_message(message),
            Session::Operational(state) => state.on_message(message),
            Session::Ended(ended) => (Session::Ended(ended), Replies::none()),
        }
    }

    /// A PDU of the sender came. The session ends by a fatal Notification where the sender is not the peer with label
    /// space 0 (RFC 5036 section 3.5.1.2.1); else no tick has passed since.
    pub fn heard(self, sender: LdpId) -> (Session, Replies)
        ensures session { view_of result.0 ≡ view_next (view_of self) (Heard sender) }
        ensures replies { result.1 ≡ view_said (view_of self) (Heard sender) }
    {
        match self {
            Session::Initialized(state) => state.heard(sender),
            Session::OpenSent(state) => state.heard(sender),
            Session::OpenRec(state) => state.heard(sender),
            Session::Operational(state) => state.heard(sender),
            Session::Ended(ended) => (Session::Ended(ended), Replies::none()),
        }
    }

    /// What came from the peer is no PDU: the session ends, and a fatal Notification tells the fault (RFC 5036 sections
    /// 3.5.1.2.1 and 3.5.1.2.2). The fault is not want of memory.
    pub fn refused(self, fault: DecodeFault) -> (Session, Replies)
        requires { fault ≢ DecodeFault.NoMemory }
        ensures session { view_of result.0 ≡ view_next (view_of self) (Refused fault) }
        ensures replies { result.1 ≡ view_said (view_of self) (Refused fault) }
    {
        let (ended, replies) = match self {
            Session::Initialized(state) => state.refused(fault),
            Session::OpenSent(state) => state.refused(fault),
            Session::OpenRec(state) => state.refused(fault),
            Session::Operational(state) => state.refused(fault),
            Session::Ended(ended) => (ended, Replies::none()),
        };
        (Session::Ended(ended), replies)
    }

    /// Something was put to the peer: no tick has passed since.
    pub fn spoke(self) -> Session
        ensures session { view_of result ≡ view_next (view_of self) Spoke }
    {
        match self {
            Session::Initialized(state) => Session::Initialized(state.spoke()),
            Session::OpenSent(state) => Session::OpenSent(state.spoke()),
            Session::OpenRec(state) => Session::OpenRec(state.spoke()),
            Session::Operational(state) => Session::Operational(state.spoke()),
            Session::Ended(ended) => Session::Ended(ended),
        }
    }

    /// A tick passes (RFC 5036 section 2.5.6). The session ends by a fatal Notification where nothing was then heard for the
    /// hold time. Else a KeepAlive is put where an Initialization was accepted and nothing was put for a third of it.
    pub fn tick(self) -> (Session, Replies)
        ensures session { view_of result.0 ≡ view_next (view_of self) Ticked }
        ensures replies { result.1 ≡ view_said (view_of self) Ticked }
    {
        match self {
            Session::Initialized(state) => state.tick(),
            Session::OpenSent(state) => state.tick(),
            Session::OpenRec(state) => state.tick(),
            Session::Operational(state) => state.tick(),
            Session::Ended(ended) => (Session::Ended(ended), Replies::none()),
        }
    }

    /// How many ticks pass before one that ends the session, or at which a KeepAlive is to be put (RFC 5036 section 2.5.6). A
    /// session that ended has nothing to do at any tick.
    pub fn quiet(&self) -> u64
        ensures { result ≡ quiet_of (view_of self.now) }
    {
        match self {
            Session::Initialized(state) => state.quiet(),
            Session::OpenSent(state) => state.quiet(),
            Session::OpenRec(state) => state.quiet(),
            Session::Operational(state) => state.quiet(),
            Session::Ended(_) => u64::MAX,
        }
    }

    /// So many ticks pass, at which nothing is to be done.
    pub fn pass(&mut self, ticks: u64)
        requires { ticks ≤ quiet_of (view_of self.old) }
        ensures { view_of self.new ≡ view_later ticks (view_of self.old) }
    {
        match self {
            Session::Initialized(state) => state.pass(ticks),
            Session::OpenSent(state) => state.pass(ticks),
            Session::OpenRec(state) => state.pass(ticks),
            Session::Operational(state) => state.pass(ticks),
            Session::Ended(_) => {}
        }
    }

    /// The connection was lost, or the link did not take a PDU, as the reason says. Nothing is put. A session that ended
    /// before keeps its own reason.
    pub fn closed(self, reason: Reason) -> Session
        requires { (reason ≡ Reason.Closed) ⊎ (reason ≡ Reason.LinkFault) }
        ensures session { view_of result ≡ view_next (view_of self) (Closed reason) }
    {
        let ended = match self {
            Session::Initialized(state) => state.closed(reason),
            Session::OpenSent(state) => state.closed(reason),
            Session::OpenRec(state) => state.closed(reason),
            Session::Operational(state) => state.closed(reason),
            Session::Ended(ended) => ended,
        };
        Session::Ended(ended)
    }

    /// The most that a PDU Length may be, 256 to 4096 octets (RFC 5036 section 3.5.3); `None` exactly where the session
    /// ended.
    pub fn max_pdu(&self) -> Option<u16>
        ensures value { result ≡ max_pdu_of (view_of self.now) }
        ensures least { IfSome result (λ octets. 256 ≤ octets) }
        ensures longest { IfSome result (λ octets. octets ≤ 4096) }
    {
        match self {
            Session::Initialized(state) => Some(state.max_pdu()),
            Session::OpenSent(state) => Some(state.max_pdu()),
            Session::OpenRec(state) => Some(state.max_pdu()),
            Session::Operational(state) => Some(state.max_pdu()),
            Session::Ended(_) => None,
        }
    }

    /// The hold time in ticks (RFC 5036 section 3.5.3), 1 to 65535; `None` exactly where the session ended.
    pub fn hold(&self) -> Option<u16>
        ensures value { result ≡ hold_of (view_of self.now) }
        ensures some { IfSome result (λ ticks. 1 ≤ ticks) }
    {
        match self {
            Session::Initialized(state) => Some(state.hold()),
            Session::OpenSent(state) => Some(state.hold()),
            Session::OpenRec(state) => Some(state.hold()),
            Session::Operational(state) => Some(state.hold()),
            Session::Ended(_) => None,
        }
    }
}
