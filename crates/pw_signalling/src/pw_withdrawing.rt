//! The state of an end that has withdrawn its label.
ghost use Rattle.std.specs.Prelude.{◌≡◌, option_copied};

use crate::Binding;
use net_base::Label;
use std::marker::Model;

/// An end that has withdrawn its label and waits for the peer to release it (RFC 5036 section 3.5.10). Contracts see the
/// label and the remote part.
#[derive(Debug, Drop)]
pub struct PwWithdrawing {
    label: Label,
    remote: Option<Binding>,
}

impl Model for PwWithdrawing {
    ghost use Rattle.pw_signalling.specs.End.{WithdrawingEnd};

    ghost Value = { WithdrawingEnd };

    ghost view = { λ e. record { label = e.label; remote = e.remote } };
}

impl PwWithdrawing {
    // The end with this label and remote part.
    pub(crate) fn with(label: Label, remote: Option<Binding>) -> PwWithdrawing
        ensures { result ≡ record { label = label; remote = remote } }
    {
        PwWithdrawing { label, remote }
    }

    /// The label that was withdrawn.
    pub fn label(&self) -> Label
        ensures label { result ≡ self.now.label }
    {
        self.label
    }

    /// What the end holds of its peer, where it holds a binding.
    pub fn remote(&self) -> Option<&Binding>
        ensures remote { option_copied result ≡ self.now.remote }
    {
        self.remote.as_ref()
    }

    // The same end with another remote part.
    pub(crate) fn with_remote(self, remote: Option<Binding>) -> PwWithdrawing
        ensures { result ≡ record self { remote = remote } }
    {
        PwWithdrawing { remote, ..self }
    }
}
