//! What the words of a choice tell, by their places.
ghost use Rattle.std.specs.Prelude.{◌≡◌};
ghost use Rattle.line_shapes.specs.Choices.{all_causes, all_wire_ends, all_states, cause_at, cause_place, wire_end_at, wire_end_place, state_at, state_place, switch_place};

use net_base::{Down, DropCause, Reason, StateName};

/// The place of `off` or `on`.
pub fn switch_place(on: bool) -> u64
    ensures { result ≡ switch_place on }
{
    if on { 1 } else { 0 }
}

// All causes of a drop.
fn causes() -> [DropCause; 18]
    ensures { result ≡ all_causes }
{
    [
        DropCause::Short,
        DropCause::Long,
        DropCause::WrongTag,
        DropCause::NoTag,
        DropCause::BadNibble,
        DropCause::NotBottom,
        DropCause::Ttl,
        DropCause::NoLabel,
        DropCause::Down,
        DropCause::NoBinding,
        DropCause::Expired,
        DropCause::Version,
        DropCause::Channel,
        DropCause::Ip,
        DropCause::Checksum,
        DropCause::Icmp,
        DropCause::NotOffered,
        DropCause::LinkFault,
    ]
}

/// The cause of a drop at a place.
pub fn cause_at(place: u64) -> DropCause
    ensures { result ≡ cause_at place }
{
    match causes().get(place as usize) {
        Some(cause) => *cause,
        None => DropCause::Short,
    }
}

/// The place of a cause.
pub fn cause_place(cause: DropCause) -> u64
    ensures { result ≡ cause_place cause }
{
    match cause {
        DropCause::Short => 0,
        DropCause::Long => 1,
        DropCause::WrongTag => 2,
        DropCause::NoTag => 3,
        DropCause::BadNibble => 4,
        DropCause::NotBottom => 5,
        DropCause::Ttl => 6,
        DropCause::NoLabel => 7,
        DropCause::Down => 8,
        DropCause::NoBinding => 9,
        DropCause::Expired => 10,
        DropCause::Version => 11,
        DropCause::Channel => 12,
        DropCause::Ip => 13,
        DropCause::Checksum => 14,
        DropCause::Icmp => 15,
        DropCause::NotOffered => 16,
        DropCause::LinkFault => 17,
    }
}

// All ends of wires: one that forwards, and why others do not.
fn ends() -> [Option<Down>; 9]
    ensures { result ≡ all_wire_ends }
{
    [
        None,
        Some(Down::NoLocal),
        Some(Down::NoRemote),
        Some(Down::CBit),
        Some(Down::Kind),
        Some(Down::Mtu),
        Some(Down::LocalFault),
        Some(Down::RemoteFault),
        Some(Down::Standby),
    ]
}

/// A wire's end at a place: `None` where it forwards.
pub fn wire_end_at(place: u64) -> Option<Down>
    ensures { result ≡ wire_end_at place }
{
    match ends().get(place as usize) {
        Some(end) => *end,
        None => None,
    }
}

/// The place of a wire's end.
pub fn wire_end_place(end: Option<Down>) -> u64
    ensures { result ≡ wire_end_place end }
{
    match end {
        None => 0,
        Some(Down::NoLocal) => 1,
        Some(Down::NoRemote) => 2,
        Some(Down::CBit) => 3,
        Some(Down::Kind) => 4,
        Some(Down::Mtu) => 5,
        Some(Down::LocalFault) => 6,
        Some(Down::RemoteFault) => 7,
        Some(Down::Standby) => 8,
    }
}

// All states of a session.
fn states() -> [StateName; 16]
    ensures { result ≡ all_states }
{
    [
        StateName::NonExistent,
        StateName::Initialized,
        StateName::OpenSent,
        StateName::OpenRec,
        StateName::Operational,
        StateName::Ended(Reason::BadVersion),
        StateName::Ended(Reason::BadReceiver),
        StateName::Ended(Reason::ZeroKeepAlive),
        StateName::Ended(Reason::Unexpected),
        StateName::Ended(Reason::Expired),
        StateName::Ended(Reason::PeerShutdown),
        StateName::Ended(Reason::PeerFatal),
        StateName::Ended(Reason::Decode),
        StateName::Ended(Reason::Closed),
        StateName::Ended(Reason::LinkFault),
        StateName::Ended(Reason::BadIdentifier),
    ]
}

/// The state of a session at a place.
pub fn state_at(place: u64) -> StateName
    ensures { result ≡ state_at place }
{
    match states().get(place as usize) {
        Some(state) => *state,
        None => StateName::NonExistent,
    }
}

/// The place of a state.
pub fn state_place(state: StateName) -> u64
    ensures { result ≡ state_place state }
{
    match state {
        StateName::NonExistent => 0,
        StateName::Initialized => 1,
        StateName::OpenSent => 2,
        StateName::OpenRec => 3,
        StateName::Operational => 4,
        StateName::Ended(Reason::BadVersion) => 5,
        StateName::Ended(Reason::BadReceiver) => 6,
        StateName::Ended(Reason::ZeroKeepAlive) => 7,
        StateName::Ended(Reason::Unexpected) => 8,
        StateName::Ended(Reason::Expired) => 9,
        StateName::Ended(Reason::PeerShutdown) => 10,
        StateName::Ended(Reason::PeerFatal) => 11,
        StateName::Ended(Reason::Decode) => 12,
        StateName::Ended(Reason::Closed) => 13,
        StateName::Ended(Reason::LinkFault) => 14,
        StateName::Ended(Reason::BadIdentifier) => 15,
    }
}
