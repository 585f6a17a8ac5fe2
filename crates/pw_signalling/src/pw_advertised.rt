//! The state of an end that advertises a label.
ghost use Rattle.std.specs.Prelude.{◌≡◌, option_copied};
ghost use Rattle.pw_signalling.specs.{End.{advertised_end, withdrawing_end}, Rows.{telling, withdrawn}};

use crate::{Binding, PwWithdrawing, Told};
use net_base::Label;
use pw_tlvs::PwStatus;
use std::marker::Model;

/// An end that advertises a label. Contracts see the label, what was told with it, and the remote part.
#[derive(Debug, Drop)]
pub struct PwAdvertised {
    label: Label,
    told: Told,
    remote: Option<Binding>,
}

impl Model for PwAdvertised {
    ghost use Rattle.pw_signalling.specs.End.{AdvertisedEnd};

    ghost Value = { AdvertisedEnd };

    ghost view = { λ e. record { label = e.label; told = e.told; remote = e.remote } };
}

impl PwAdvertised {
    // The end with this label, content and remote part.
    pub(crate) fn with(label: Label, told: Told, remote: Option<Binding>) -> PwAdvertised
        ensures { result ≡ record { label = label; told = told; remote = remote } }
    {
        PwAdvertised {
            label,
            told,
            remote,
        }
    }

    /// The label that is advertised.
    pub fn label(&self) -> Label
        ensures label { result ≡ self.now.label }
    {
        self.label
    }

    /// What is told of the pseudowire, with the status that was told last.
    pub fn told(&self) -> &Told
        ensures told { result.now ≡ self.now.told }
    {
        &self.told
    }

    /// What the end holds of its peer, where it holds a binding.
    pub fn remote(&self) -> Option<&Binding>
        ensures remote { option_copied result ≡ self.now.remote }
    {
        self.remote.as_ref()
    }

    /// A Notification with this status is put (RFC 8077 section 6.3.2).
    pub fn tell(self, status: PwStatus) -> PwAdvertised
        ensures state { advertised_end result ≡ telling status (advertised_end self) }
    {
        PwAdvertised {
            label: self.label,
            told: self.told.with_status(status),
            remote: self.remote,
        }
    }

    /// A Label Withdraw is put (RFC 5036 section 3.5.10). The label stays the end's own until the peer releases it or the
    /// session is lost.
    pub fn withdraw(self) -> PwWithdrawing
        ensures state { withdrawing_end result ≡ withdrawn (advertised_end self) }
    {
        PwWithdrawing::with(self.label, self.remote)
    }

    // The same end with another remote part.
    pub(crate) fn with_remote(self, remote: Option<Binding>) -> PwAdvertised
        ensures { result ≡ record self { remote = remote } }
    {
        PwAdvertised { remote, ..self }
    }
}
