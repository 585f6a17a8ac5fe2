//! What becomes of an end.
ghost use Rattle.std.specs.Prelude.{◌≡◌};
ghost use Rattle.pw_signalling.specs.{AnyEnd.{end_of}, Rows.{advertised, renewed, telling, withdrawn}};
ghost use Rattle.pw_ends.specs.Changes.{changed};

use net_base::Label;
use pw_signalling::{PwEnd, Told};
use pw_tlvs::PwStatus;

/// A change of an end: what it does itself, but for an advertisement, and what comes from its peer, but for a binding.
#[derive(Clone, Copy)]
pub enum EndChange {
    /// A Label Withdraw is put, where it advertises (RFC 5036 section 3.5.10). The label stays the end's own until the peer
    /// releases it or the session is lost.
    Withdrawn,
    /// A Notification with this status is put, where it advertises (RFC 8077 section 6.3.2).
    Telling(PwStatus),
    /// It is declined no longer.
    Renewed,
    /// A Label Withdraw came (RFC 5036 section 3.5.10), with this label or without one: the binding goes, where the label is
    /// absent or its own.
    Unbound(Option<Label>),
    /// A Label Release came (RFC 5036 section 3.5.11), with this label or without one: where the label is absent or the end's
    /// own, what was withdrawn is released and what is advertised is declined; the end is idle, and the number of its label waits
    /// for the peer. A release of another label changes nothing.
    Released(Option<Label>),
    /// A Notification with this status came (RFC 8077 section 6.3.2): it is that of the binding, where one is held.
    Stated(PwStatus),
    /// A Label Withdraw of this whole group came (RFC 8077 section 6.5): a binding of the group goes.
    GroupUnbound(u32),
    /// A Notification of this whole group with this status came (RFC 8077 section 6.5): it is that of a binding of the group.
    GroupStated(u32, PwStatus),
    /// The session with its peer is lost: the end is idle, not declined, and holds no binding (RFC 5036 section 3.5.1.1), and the
    /// number of its label waits for the peer.
    Lost,
}

impl EndChange {
    // What becomes of an end.
    pub(crate) fn of(&self, end: PwEnd) -> PwEnd
        ensures { end_of result ≡ changed self.now (end_of end) }
    {
        match *self {
            EndChange::Withdrawn => withdraw(end),
            EndChange::Telling(status) => tell(end, status),
            EndChange::Renewed => renew(end),
            EndChange::Unbound(label) => end.on_withdraw(label),
            EndChange::Released(label) => end.on_release(label),
            EndChange::Stated(status) => end.on_status(status),
            EndChange::GroupUnbound(group) => end.on_group_withdraw(group),
            EndChange::GroupStated(group, status) => end.on_group_status(group, status),
            EndChange::Lost => end.lost(),
        }
    }
}

// The end withdraws its label, where it advertises.
fn withdraw(end: PwEnd) -> PwEnd
    ensures { end_of result ≡ withdrawn (end_of end) }
{
    match end {
        PwEnd::Idle(end) => PwEnd::Idle(end),
        PwEnd::Advertised(end) => PwEnd::Withdrawing(end.withdraw()),
        PwEnd::Withdrawing(end) => PwEnd::Withdrawing(end),
    }
}

// The end tells a status, where it advertises.
fn tell(end: PwEnd, status: PwStatus) -> PwEnd
    ensures { end_of result ≡ telling status (end_of end) }
{
    match end {
        PwEnd::Idle(end) => PwEnd::Idle(end),
        PwEnd::Advertised(end) => PwEnd::Advertised(end.tell(status)),
        PwEnd::Withdrawing(end) => PwEnd::Withdrawing(end),
    }
}

// The end is declined no longer, where it is idle.
fn renew(end: PwEnd) -> PwEnd
    ensures { end_of result ≡ renewed (end_of end) }
{
    match end {
        PwEnd::Idle(end) => PwEnd::Idle(end.renew()),
        PwEnd::Advertised(end) => PwEnd::Advertised(end),
        PwEnd::Withdrawing(end) => PwEnd::Withdrawing(end),
    }
}

// The end advertises a label, where it is idle.
pub(crate) fn advertise(end: PwEnd, label: Label, told: &Told) -> PwEnd
    ensures { end_of result ≡ advertised label told.now (end_of end) }
{
    match end {
        PwEnd::Idle(end) => PwEnd::Advertised(end.advertise(label, *told)),
        PwEnd::Advertised(end) => PwEnd::Advertised(end),
        PwEnd::Withdrawing(end) => PwEnd::Withdrawing(end),
    }
}
