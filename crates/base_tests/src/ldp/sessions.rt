//! Sessions in their states, and what happens to them, in octets that were worked out by hand.

use crate::hex::octets_of;
use crate::rows::{About, reads_as};
use crate::steps::{event_of, number_of};
use crate::words::{holds, is_told};
use ldp_codec::{DecodeFault, decode_pdu};
use ldp_grammar::{LdpId, Message, Pdu};
use net_base::{Addr, Reason};
use session_core::{In, Peers, Replies, Session};
use std::alloc::Global;
use std::process::Abort;

// The end with the smaller address, which is the passive one.
const PASSIVE: Peers = Peers {
    me: Addr([10, 0, 0, 1]),
    peer: Addr([10, 0, 0, 2]),
    keepalive: 180,
    max_pdu: 4096,
};

// The other end of the same session.
const ACTIVE: Peers = Peers {
    me: Addr([10, 0, 0, 2]),
    peer: Addr([10, 0, 0, 1]),
    keepalive: 60,
    max_pdu: 1500,
};

// The passive end, whose peer proposed its KeepAlive Time.
fn accepted() -> Session {
    let params = ACTIVE.proposal();
    let message = Message::Initialization { id: 7, params };
    Session::Initialized(In::new(PASSIVE))
        .on_message(&message)
        .0
}

// A new session in the state that the first letter of its name tells. `opened` is a connection of the passive end, `early`
// that of the active one before it sent anything, and `started` with its Initialization; `accepted` is the passive end, whose
// peer proposed the KeepAlive Time 60, and `up` the same with its session up. Behind other letters it is the session itself.
fn session_of(session: Session, letter: u8) -> Session {
    match letter {
        b'o' => Session::Initialized(In::new(PASSIVE)),
        b'e' => Session::Initialized(In::new(ACTIVE)),
        b's' => Session::Initialized(In::new(ACTIVE)).start().0,
        b'a' => accepted(),
        b'u' => accepted().on_message(&Message::KeepAlive { id: 8 }).0,
        _ => session,
    }
}

// A PDU comes: its sender, and where nothing comes of that, its message.
fn hear(session: Session, pdu: &Pdu) -> (Session, Replies) {
    let (session, replies) = session.heard(pdu.id);
    match pdu.messages.get(0) {
        Some(message) if replies.is_empty() => session.on_message(message),
        _ => (session, replies),
    }
}

// Octets come: a PDU with one message, or what is no PDU.
fn read(rt: &impl Abort, alloc: Global, session: Session, octets: &[u8]) -> (Session, Replies) {
    match decode_pdu(alloc, octets, 4096) {
        Ok(pdu) => hear(session, &pdu),
        Err(fault) => {
            holds(rt, fault != DecodeFault::NoMemory, "memory");
            session.refused(fault)
        }
    }
}

// The octets of these digits come. The session begins where there are none.
fn comes(rt: &impl Abort, alloc: Global, session: Session, digits: &str) -> (Session, Replies) {
    if digits.is_empty() {
        session.start()
    } else {
        read(rt, alloc, session, octets_of(rt, alloc, digits).as_slice())
    }
}

// So many ticks pass; what the last of them brings about.
fn pass(session: Session, count: u32) -> (Session, Replies) {
    let mut session = session;
    for _tick in 1..count {
        session = session.tick().0;
    }
    session.tick()
}

// What an event brings about, which the first letter of its name tells: a session `begins`; so many `ticks` pass, or something is
// put (`writes`), and then so many ticks pass; a PDU of the end with this address is heard (`hears`); the connection is
// `lost`, or the link `fails`, and then the session begins, which brings about nothing any more. Behind other letters
// octets come.
fn take(
    rt: &impl Abort,
    alloc: Global,
    session: Session,
    letter: u8,
    more: &str,
) -> (Session, Replies) {
    match letter {
        b'b' => session.start(),
        b't' => pass(session, number_of(rt, more)),
        b'w' => pass(session.spoke(), number_of(rt, more)),
        b'h' => {
            let router = Addr([10, 0, 0, (number_of(rt, more) % 256) as u8]);
            session.heard(LdpId { router, space: 0 })
        }
        b'l' => session.closed(Reason::Closed).start(),
        b'f' => session.closed(Reason::LinkFault).start(),
        _ => comes(rt, alloc, session, more),
    }
}

// A session takes an event. The words tell the state in which it is then, its hold time and the longest PDU where it stands, and the two
// messages that it puts.
fn step(rt: &impl Abort, alloc: Global, session: Session, event: &str, words: &str) -> Session {
    let (letter, more) = event_of(rt, event);
    let (next, replies) = take(rt, alloc, session_of(session, letter), letter, more);
    let terms = (next.state(), next.hold(), next.max_pdu());
    let told = (terms.0, terms.1, terms.2, replies.get(0), replies.get(1));
    is_told(rt, alloc, &told, words);
    next
}

// What comes to a session in each state: the table of states, row by row. Then a session that comes up at both ends, and ends
// without a word; and ticks: KeepAlives and the end of the hold time.
const EVENTS: &str = "
    What an Initialization proposes, to the passive end that proposes 180 ticks and 4096 octets, and to the active one that
    proposes 60 ticks and 1500 octets. Version, receiver and KeepAlive Time are wrong.
    opened 000100200a0000020000 0200001600000007 0500000e 00020000000010000a0000020000 = (Ended(BadVersion), None, None, Some(Notice(StatusCode { fatal: true, forward: false, code: 2, message: 7, kind: 512 })), None)
    started 000100200a0000010000 0200001600000007 0500000e 00000000000005dc0a0000010000 = (Ended(BadVersion), None, None, Some(Notice(StatusCode { fatal: true, forward: false, code: 2, message: 7, kind: 512 })), None)
    Receiver and KeepAlive Time are wrong.
    opened 000100200a0000020000 0200001600000007 0500000e 00010000000010000a0000020000 = (Ended(BadReceiver), None, None, Some(Notice(StatusCode { fatal: true, forward: false, code: 16, message: 7, kind: 512 })), None)
    started 000100200a0000010000 0200001600000007 0500000e 00010000000005dc0a0000010000 = (Ended(BadReceiver), None, None, Some(Notice(StatusCode { fatal: true, forward: false, code: 16, message: 7, kind: 512 })), None)
    The receiver's label space alone is wrong, and the receiver alone.
    opened 000100200a0000020000 0200001600000007 0500000e 0001003c000005dc0a0000010001 = (Ended(BadReceiver), None, None, Some(Notice(StatusCode { fatal: true, forward: false, code: 16, message: 7, kind: 512 })), None)
    started 000100200a0000010000 0200001600000007 0500000e 0001003c000005dc0a0000010000 = (Ended(BadReceiver), None, None, Some(Notice(StatusCode { fatal: true, forward: false, code: 16, message: 7, kind: 512 })), None)
    The KeepAlive Time alone is wrong.
    opened 000100200a0000020000 0200001600000007 0500000e 00010000000005dc0a0000010000 = (Ended(ZeroKeepAlive), None, None, Some(Notice(StatusCode { fatal: true, forward: false, code: 24, message: 7, kind: 512 })), None)
    started 000100200a0000010000 0200001600000007 0500000e 00010000000010000a0000020000 = (Ended(ZeroKeepAlive), None, None, Some(Notice(StatusCode { fatal: true, forward: false, code: 24, message: 7, kind: 512 })), None)
    The smaller hold time of two.
    opened 000100200a0000020000 0200001600000007 0500000e 0001003c000005dc0a0000010000 = (OpenRec, Some(60), Some(1500), Some(Init), Some(KeepAlive))
    opened 000100200a0000020000 0200001600000007 0500000e 0001ffff000005dc0a0000010000 = (OpenRec, Some(180), Some(1500), Some(Init), Some(KeepAlive))
    started 000100200a0000010000 0200001600000007 0500000e 000100b4000010000a0000020000 = (OpenRec, Some(60), Some(1500), Some(KeepAlive), None)
    255 octets or less stand for 4096, and more than that are not taken. The A bit refuses nothing.
    opened 000100200a0000020000 0200001600000007 0500000e 0001003c800000000a0000010000 = (OpenRec, Some(60), Some(4096), Some(Init), Some(KeepAlive))
    opened 000100200a0000020000 0200001600000007 0500000e 0001003c800000ff0a0000010000 = (OpenRec, Some(60), Some(4096), Some(Init), Some(KeepAlive))
    opened 000100200a0000020000 0200001600000007 0500000e 0001003c800001000a0000010000 = (OpenRec, Some(60), Some(256), Some(Init), Some(KeepAlive))
    opened 000100200a0000020000 0200001600000007 0500000e 0001003c800023280a0000010000 = (OpenRec, Some(60), Some(4096), Some(Init), Some(KeepAlive))
    Messages that a state expects or does not expect: a KeepAlive.
    opened 0001000e0a0000020000 0201000400000008 = (Ended(Unexpected), None, None, Some(Notice(StatusCode { fatal: true, forward: false, code: 10, message: 8, kind: 513 })), None)
    started 0001000e0a0000010000 0201000400000008 = (Ended(Unexpected), None, None, Some(Notice(StatusCode { fatal: true, forward: false, code: 10, message: 8, kind: 513 })), None)
    accepted 0001000e0a0000020000 0201000400000008 = (Operational, Some(60), Some(1500), None, None)
    up 0001000e0a0000020000 0201000400000008 = (Operational, Some(60), Some(1500), None, None)
    An Initialization: the active end speaks first.
    accepted 000100200a0000020000 0200001600000007 0500000e 0001003c000005dc0a0000010000 = (Ended(Unexpected), None, None, Some(Notice(StatusCode { fatal: true, forward: false, code: 10, message: 7, kind: 512 })), None)
    early 000100200a0000010000 0200001600000007 0500000e 000100b4000010000a0000020000 = (Ended(Unexpected), None, None, Some(Notice(StatusCode { fatal: true, forward: false, code: 10, message: 7, kind: 512 })), None)
    up 000100200a0000020000 0200001600000007 0500000e 0001003c000005dc0a0000010000 = (Operational, Some(60), Some(1500), None, None)
    A message of another type.
    accepted 0001000e0a0000020000 be01000400000005 = (Ended(Unexpected), None, None, Some(Notice(StatusCode { fatal: true, forward: false, code: 10, message: 5, kind: 15873 })), None)
    up 0001000e0a0000020000 be01000400000005 = (Operational, Some(60), Some(1500), None, None)
    A Notification that is not processed is no Notification, and such an Initialization is none.
    accepted 0001000e0a0000020000 0001000400000006 = (Ended(Unexpected), None, None, Some(Notice(StatusCode { fatal: true, forward: false, code: 10, message: 6, kind: 1 })), None)
    up 0001000e0a0000020000 0001000400000006 = (Operational, Some(60), Some(1500), None, None)
    opened 0001000e0a0000020000 0200000400000006 = (Ended(Unexpected), None, None, Some(Notice(StatusCode { fatal: true, forward: false, code: 10, message: 6, kind: 512 })), None)
    started 0001000e0a0000010000 0200000400000006 = (Ended(Unexpected), None, None, Some(Notice(StatusCode { fatal: true, forward: false, code: 10, message: 6, kind: 512 })), None)
    Notifications: a shutdown.
    opened 0001001c0a0000020000 0001001200000009 0300000a 8000000a 000000000000 = (Ended(PeerShutdown), None, None, None, None)
    started 0001001c0a0000010000 0001001200000009 0300000a 8000000a 000000000000 = (Ended(PeerShutdown), None, None, None, None)
    accepted 0001001c0a0000020000 0001001200000009 0300000a 8000000a 000000000000 = (Ended(PeerShutdown), None, None, None, None)
    up 0001001c0a0000020000 0001001200000009 0300000a 8000000a 000000000000 = (Ended(PeerShutdown), None, None, Some(Notice(StatusCode { fatal: true, forward: false, code: 10, message: 9, kind: 1 })), None)
    Another fatal error.
    opened 0001001c0a0000020000 0001001200000009 0300000a 80000014 000000000000 = (Ended(PeerFatal), None, None, None, None)
    started 0001001c0a0000010000 0001001200000009 0300000a 80000014 000000000000 = (Ended(PeerFatal), None, None, None, None)
    accepted 0001001c0a0000020000 0001001200000009 0300000a 80000014 000000000000 = (Ended(PeerFatal), None, None, None, None)
    up 0001001c0a0000020000 0001001200000009 0300000a 80000014 000000000000 = (Ended(PeerFatal), None, None, None, None)
    up 0001001c0a0000020000 0001001200000009 0300000a 80000028 000000000000 = (Ended(PeerFatal), None, None, None, None)
    Advice is passed over.
    opened 0001001c0a0000020000 0001001200000009 0300000a 0000000a 000000000000 = (Initialized, Some(180), Some(4096), None, None)
    started 0001001c0a0000010000 0001001200000009 0300000a 0000000a 000000000000 = (OpenSent, Some(60), Some(4096), None, None)
    accepted 0001001c0a0000020000 0001001200000009 0300000a 0000000a 000000000000 = (OpenRec, Some(60), Some(1500), None, None)
    up 0001001c0a0000020000 0001001200000009 0300000a 0000000a 000000000000 = (Operational, Some(60), Some(1500), None, None)
    PDUs of other senders, or of another label space, and one of the peer.
    opened 0001000e0a0000030000 0201000400000008 = (Ended(BadIdentifier), None, None, Some(Notice(StatusCode { fatal: true, forward: false, code: 1, message: 0, kind: 0 })), None)
    started 0001000e0a0000010001 0201000400000008 = (Ended(BadIdentifier), None, None, Some(Notice(StatusCode { fatal: true, forward: false, code: 1, message: 0, kind: 0 })), None)
    accepted 0001000e0a0000010000 0201000400000008 = (Ended(BadIdentifier), None, None, Some(Notice(StatusCode { fatal: true, forward: false, code: 1, message: 0, kind: 0 })), None)
    up 0001000e0a0000020001 0201000400000008 = (Ended(BadIdentifier), None, None, Some(Notice(StatusCode { fatal: true, forward: false, code: 1, message: 0, kind: 0 })), None)
    up 0001000e0a0000020000 0201000400000008 = (Operational, Some(60), Some(1500), None, None)
    Octets that are no PDU: the version, the PDU Length, a Message Length, a TLV's Length, its value, and a TLV that comes again.
    opened 0002000d = (Ended(Decode), None, None, Some(Notice(StatusCode { fatal: true, forward: false, code: 2, message: 0, kind: 0 })), None)
    started 0001000d = (Ended(Decode), None, None, Some(Notice(StatusCode { fatal: true, forward: false, code: 3, message: 0, kind: 0 })), None)
    accepted 0001000e0a0000020000 0201000300000001 = (Ended(Decode), None, None, Some(Notice(StatusCode { fatal: true, forward: false, code: 5, message: 0, kind: 0 })), None)
    up 000100130a0000020000 0201000900000001 3f000002 00 = (Ended(Decode), None, None, Some(Notice(StatusCode { fatal: true, forward: false, code: 7, message: 0, kind: 0 })), None)
    opened 000100150a0000020000 0100000b00000001 04000003 000000 = (Ended(Decode), None, None, Some(Notice(StatusCode { fatal: true, forward: false, code: 8, message: 0, kind: 0 })), None)
    up 0001001e0a0000020000 0100001400000001 04000004 000f8000 04000004 000f8000 = (Ended(Decode), None, None, Some(Notice(StatusCode { fatal: true, forward: false, code: 8, message: 0, kind: 0 })), None)
    The active end comes up.
    early = (OpenSent, Some(60), Some(4096), Some(Init), None)
    begins = (OpenSent, Some(60), Some(4096), None, None)
    comes 000100200a0000010000 0200001600000001 0500000e 000100b4000010000a0000020000 = (OpenRec, Some(60), Some(1500), Some(KeepAlive), None)
    comes 0001000e0a0000010000 0201000400000002 = (Operational, Some(60), Some(1500), None, None)
    The passive end comes up.
    opened = (Initialized, Some(180), Some(4096), None, None)
    begins = (Initialized, Some(180), Some(4096), None, None)
    comes 000100200a0000020000 0200001600000001 0500000e 0001003c000005dc0a0000010000 = (OpenRec, Some(60), Some(1500), Some(Init), Some(KeepAlive))
    comes 0001000e0a0000020000 0201000400000002 = (Operational, Some(60), Some(1500), None, None)
    The connection is lost. The session ended, stays so, and puts nothing.
    opened = (Initialized, Some(180), Some(4096), None, None)
    lost = (Ended(Closed), None, None, None, None)
    fails = (Ended(Closed), None, None, None, None)
    comes 0001000e0a0000020000 0201000400000002 = (Ended(Closed), None, None, None, None)
    ticks 1 = (Ended(Closed), None, None, None, None)
    started = (OpenSent, Some(60), Some(4096), None, None)
    lost = (Ended(Closed), None, None, None, None)
    fails = (Ended(Closed), None, None, None, None)
    comes 0001000e0a0000020000 0201000400000002 = (Ended(Closed), None, None, None, None)
    ticks 1 = (Ended(Closed), None, None, None, None)
    The link fails.
    started = (OpenSent, Some(60), Some(4096), None, None)
    fails = (Ended(LinkFault), None, None, None, None)
    The hold time is 9, so a third of it is 3. What is put is put at the first chance only.
    opened 000100200a0000020000 0200001600000007 0500000e 00010009000005dc0a0000010000 = (OpenRec, Some(9), Some(1500), Some(Init), Some(KeepAlive))
    ticks 2 = (OpenRec, Some(9), Some(1500), None, None)
    ticks 1 = (OpenRec, Some(9), Some(1500), Some(KeepAlive), None)
    writes 2 = (OpenRec, Some(9), Some(1500), None, None)
    ticks 1 = (OpenRec, Some(9), Some(1500), Some(KeepAlive), None)
    ticks 2 = (OpenRec, Some(9), Some(1500), Some(KeepAlive), None)
    ticks 1 = (Ended(Expired), None, None, Some(Notice(StatusCode { fatal: true, forward: false, code: 20, message: 0, kind: 0 })), None)
    The hold time is 2: a third of it is one tick.
    opened 000100200a0000020000 0200001600000007 0500000e 00010002000005dc0a0000010000 = (OpenRec, Some(2), Some(1500), Some(Init), Some(KeepAlive))
    ticks 1 = (OpenRec, Some(2), Some(1500), Some(KeepAlive), None)
    ticks 1 = (Ended(Expired), None, None, Some(Notice(StatusCode { fatal: true, forward: false, code: 20, message: 0, kind: 0 })), None)
    The hold time is 60, so a third of it is 20.
    up = (Operational, Some(60), Some(1500), None, None)
    ticks 19 = (Operational, Some(60), Some(1500), None, None)
    ticks 1 = (Operational, Some(60), Some(1500), Some(KeepAlive), None)
    writes 19 = (Operational, Some(60), Some(1500), None, None)
    ticks 1 = (Operational, Some(60), Some(1500), Some(KeepAlive), None)
    Nothing is put before an Initialization was accepted.
    opened = (Initialized, Some(180), Some(4096), None, None)
    writes 100 = (Initialized, Some(180), Some(4096), None, None)
    writes 1 = (Initialized, Some(180), Some(4096), None, None)
    started = (OpenSent, Some(60), Some(4096), None, None)
    writes 40 = (OpenSent, Some(60), Some(4096), None, None)
    writes 1 = (OpenSent, Some(60), Some(4096), None, None)
    A session expires at the last tick of its hold time, which begins anew where its peer is heard before. Before it agreed, that
    is its own proposal.
    opened = (Initialized, Some(180), Some(4096), None, None)
    ticks 179 = (Initialized, Some(180), Some(4096), None, None)
    hears 2 = (Initialized, Some(180), Some(4096), None, None)
    ticks 179 = (Initialized, Some(180), Some(4096), None, None)
    ticks 1 = (Ended(Expired), None, None, Some(Notice(StatusCode { fatal: true, forward: false, code: 20, message: 0, kind: 0 })), None)
    started = (OpenSent, Some(60), Some(4096), None, None)
    ticks 59 = (OpenSent, Some(60), Some(4096), None, None)
    hears 1 = (OpenSent, Some(60), Some(4096), None, None)
    ticks 59 = (OpenSent, Some(60), Some(4096), None, None)
    ticks 1 = (Ended(Expired), None, None, Some(Notice(StatusCode { fatal: true, forward: false, code: 20, message: 0, kind: 0 })), None)
    opened 000100200a0000020000 0200001600000007 0500000e 00010009000005dc0a0000010000 = (OpenRec, Some(9), Some(1500), Some(Init), Some(KeepAlive))
    ticks 8 = (OpenRec, Some(9), Some(1500), Some(KeepAlive), None)
    hears 2 = (OpenRec, Some(9), Some(1500), None, None)
    ticks 8 = (OpenRec, Some(9), Some(1500), Some(KeepAlive), None)
    ticks 1 = (Ended(Expired), None, None, Some(Notice(StatusCode { fatal: true, forward: false, code: 20, message: 0, kind: 0 })), None)
    up = (Operational, Some(60), Some(1500), None, None)
    ticks 59 = (Operational, Some(60), Some(1500), Some(KeepAlive), None)
    hears 2 = (Operational, Some(60), Some(1500), None, None)
    ticks 59 = (Operational, Some(60), Some(1500), Some(KeepAlive), None)
    ticks 1 = (Ended(Expired), None, None, Some(Notice(StatusCode { fatal: true, forward: false, code: 20, message: 0, kind: 0 })), None)
";

#[test]
fn follows_the_table_of_states(rt: HostRuntime) {
    let mut session = accepted();
    let mut rows: usize = 0;
    for line in EVENTS.lines() {
        if let Some((event, words)) = line.split_once("= ") {
            session = step(&rt, rt.alloc(), session, event.trim(), words);
            rows = rows.saturating_add(1);
        }
    }
    holds(&rt, rows == 113, "113 rows");
}

// The Initializations of both ends, as a table of PDUs.
const INITIALIZATIONS: &str = "
    000100200a0000010000 0200001600000001 0500000e 000100b4000010000a0000020000 = Initialization { id: 1, params: SessionParams { version: 1, keepalive: 180, demand: false, loops: false, limit: 0, max_pdu: 4096, receiver: LdpId { router: Addr([10, 0, 0, 2]), space: 0 } } }
    000100200a0000020000 0200001600000001 0500000e 0001003c000005dc0a0000010000 = Pdu { id: LdpId { router: Addr([10, 0, 0, 2]), space: 0 }, messages: List { items: [Initialization { id: 1, params: SessionParams { version: 1, keepalive: 60, demand: false, loops: false, limit: 0, max_pdu: 1500, receiver: LdpId { router: Addr([10, 0, 0, 1]), space: 0 } } }] } }
";

const OF_ACTIVE: &str =
    "(SessionParams { version: 1, keepalive: 60, demand: false, loops: false, limit: 0, max_pdu: 1500, receiver: LdpId { router: Addr([10, 0, 0, 1]), space: 0 } }, true)";

const OF_PASSIVE: &str =
    "(SessionParams { version: 1, keepalive: 180, demand: false, loops: false, limit: 0, max_pdu: 4096, receiver: LdpId { router: Addr([10, 0, 0, 2]), space: 0 } }, false)";

// What each end proposes, and that the Initialization of each end tells; and whether it is the active one.
#[test]
fn proposes_its_own(rt: HostRuntime) {
    let alloc = rt.alloc();
    let active = (ACTIVE.proposal(), ACTIVE.is_active());
    let passive = (PASSIVE.proposal(), PASSIVE.is_active());
    reads_as(&rt, alloc, About::Pdus, INITIALIZATIONS, 2);
    is_told(&rt, alloc, &active, OF_ACTIVE);
    is_told(&rt, alloc, &passive, OF_PASSIVE);
}
