//! The state of an end that advertises no label.
ghost use Rattle.std.specs.Prelude.{◌≡◌, option_copied};
ghost use Rattle.pw_signalling.specs.{End.{advertised_end, fresh, idle_end}, Rows.{advertised, renewed}};

use crate::{Binding, PwAdvertised, Told};
use net_base::Label;
use std::marker::Model;

/// An end that advertises no label. It is declined where the peer released the label that it advertised: it then does not
/// advertise by itself again. Contracts see that mark and the remote part.
#[derive(Debug, Drop)]
pub struct PwIdle {
    declined: bool,
    remote: Option<Binding>,
}

impl Model for PwIdle {
    ghost use Rattle.pw_signalling.specs.End.{IdleEnd};

    ghost Value = { IdleEnd };

    ghost view = { λ e. record { declined = e.declined; remote = e.remote } };
}

impl PwIdle {
    /// An end of which nothing was told by either side: not declined, and without a binding.
    pub fn new() -> PwIdle
        ensures state { idle_end result ≡ fresh }
    {
        PwIdle {
            declined: false,
            remote: None,
        }
    }

    // The end with this mark and this remote part.
    pub(crate) fn with(declined: bool, remote: Option<Binding>) -> PwIdle
        ensures { result ≡ record { declined = declined; remote = remote } }
    {
        PwIdle { declined, remote }
    }

    /// Whether the peer declined the label that was advertised last.
    pub fn is_declined(&self) -> bool
        ensures declined { result ≡ self.now.declined }
    {
        self.declined
    }

    /// What the end holds of its peer, where it holds a binding.
    pub fn remote(&self) -> Option<&Binding>
        ensures remote { option_copied result ≡ self.now.remote }
    {
        self.remote.as_ref()
    }

    /// Clears the mark: the end may advertise again.
    pub fn renew(self) -> PwIdle
        ensures state { idle_end result ≡ renewed (idle_end self) }
    {
        PwIdle::with(false, self.remote)
    }

    /// A Label Mapping with this label and content is put (RFC 5036 section 3.5.7).
    pub fn advertise(self, label: Label, told: Told) -> PwAdvertised
        ensures state { advertised_end result ≡ advertised label told (idle_end self) }
    {
        PwAdvertised::with(label, told, self.remote)
    }
}
