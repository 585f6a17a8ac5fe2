//! An end of any state.
ghost use Rattle.std.specs.Prelude.{◌≡◌, option_copied};
ghost use Rattle.pw_signalling.specs.{Down.{down}, AnyEnd.{end_of}};
ghost use Rattle.pw_signalling.specs.Rows.{bound, group_stated, group_unbound, lost, released, stated, unbound, with_remote_part};

use crate::binding::{is_named, is_of_group};
use crate::cause::cause;
use crate::{Binding, EndRole, PwAdvertised, PwIdle, PwWithdrawing};
use net_base::{Down, Label};
use pw_tlvs::PwStatus;

/// An end of a pseudowire, in the state that its type tells. The calls here are those for what comes from the peer, of
/// whatever state the end is.
#[derive(Debug, Drop)]
pub enum PwEnd {
    /// It advertises no label.
    Idle(PwIdle),
    /// It advertises a label.
    Advertised(PwAdvertised),
    /// It has withdrawn its label, and the peer did not release it yet.
    Withdrawing(PwWithdrawing),
}

impl PwEnd {
    /// What the end holds of its peer, where it holds a binding.
    pub fn remote(&self) -> Option<&Binding>
        ensures remote { option_copied result ≡ (end_of self.now).remote }
    {
        match self {
            PwEnd::Idle(end) => end.remote(),
            PwEnd::Advertised(end) => end.remote(),
            PwEnd::Withdrawing(end) => end.remote(),
        }
    }

    /// A Label Mapping came (RFC 5036 section 3.5.7): its binding replaces the one that was held.
    pub fn on_mapping(self, binding: Binding) -> PwEnd
        ensures state { end_of result ≡ bound binding (end_of self) }
    {
        self.with_remote(Some(binding))
    }

    /// A Label Withdraw came (RFC 5036 section 3.5.10), with a label or without one: the binding goes, where the label is
    /// absent or its own.
    pub fn on_withdraw(self, label: Option<Label>) -> PwEnd
        ensures state { end_of result ≡ unbound label (end_of self) }
    {
        match self.remote() {
            Some(binding) if is_named(label, binding.label) => self.with_remote(None),
            _ => self,
        }
    }

    /// A Label Release came (RFC 5036 section 3.5.11), with a label or without one. Where the label is absent or the end's
    /// own, a label that was withdrawn is now released, and one that is advertised is declined: the end is idle. A release of
    /// another label changes nothing.
    pub fn on_release(self, label: Option<Label>) -> PwEnd
        ensures state { end_of result ≡ released label (end_of self) }
    {
        match self {
            PwEnd::Advertised(end) if is_named(label, end.label()) => {
                PwEnd::Idle(PwIdle::with(true, end.remote().copied()))
            }
            PwEnd::Withdrawing(end) if is_named(label, end.label()) => {
                PwEnd::Idle(PwIdle::with(false, end.remote().copied()))
            }
            end => end,
        }
    }

    /// A Notification with a status came (RFC 8077 section 6.3.2): it is the status of the binding, where one is held.
    pub fn on_status(self, status: PwStatus) -> PwEnd
        ensures state { end_of result ≡ stated status (end_of self) }
    {
        match self.remote() {
            Some(binding) => {
                let binding = binding.with_status(status);
                self.with_remote(Some(binding))
            }
            None => self,
        }
    }

    /// A Label Withdraw of a whole group came (RFC 8077 section 6.5): the binding goes, where it is of the group.
    pub fn on_group_withdraw(self, group: u32) -> PwEnd
        ensures state { end_of result ≡ group_unbound group (end_of self) }
    {
        if is_of_group(group, self.remote()) {
            self.on_withdraw(None)
        } else {
            self
        }
    }

    /// A Notification with a status of a whole group came (RFC 8077 section 6.3.2): it is the status of the binding, where
    /// it is of the group.
    pub fn on_group_status(self, group: u32, status: PwStatus) -> PwEnd
        ensures state { end_of result ≡ group_stated group status (end_of self) }
    {
        if is_of_group(group, self.remote()) {
            self.on_status(status)
        } else {
            self
        }
    }

    /// The session with the peer is lost: the end is idle, not declined, and holds no binding (RFC 5036 section 3.5.1.1).
    pub fn lost(self) -> PwEnd
        ensures state { end_of result ≡ lost (end_of self) }
    {
        PwEnd::Idle(PwIdle::new())
    }

    /// Why the end does not forward, by its role and its own failure bits: the first cause that holds, in the order of
    /// `Down`. `None` exactly where the end forwards.
    #[tactic(auto, unfolding(crate::specs::Down::down))]
    pub fn why_down(&self, role: EndRole, bits: u8) -> Option<Down>
        ensures cause { result ≡ down role bits (end_of self.now) }
    {
        match self {
            PwEnd::Advertised(end) => match end.remote() {
                Some(binding) => cause(role, bits, end.told(), &binding.told),
                None => Some(Down::NoRemote),
            },
            PwEnd::Idle(_) | PwEnd::Withdrawing(_) => Some(Down::NoLocal),
        }
    }

    // The same end with another remote part.
    fn with_remote(self, remote: Option<Binding>) -> PwEnd
        ensures { end_of result ≡ with_remote_part remote (end_of self) }
    {
        match self {
            PwEnd::Idle(end) => PwEnd::Idle(PwIdle::with(end.is_declined(), remote)),
            PwEnd::Advertised(end) => PwEnd::Advertised(end.with_remote(remote)),
            PwEnd::Withdrawing(end) => PwEnd::Withdrawing(end.with_remote(remote)),
        }
    }
}
