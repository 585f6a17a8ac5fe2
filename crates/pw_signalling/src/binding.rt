//! What an end holds of its peer.
ghost use Rattle.std.specs.Prelude.{◌≡◌, option_copied};
ghost use Rattle.pw_signalling.specs.Rows.{binding_with_status, is_in_group, names};

use crate::Told;
use net_base::Label;
use pw_tlvs::PwStatus;

/// What the peer's Label Mapping bound a pseudowire to (RFC 5036 section 3.5.7).
#[derive(Clone, Copy, Debug, PartialEq, Eq)]
pub struct Binding {
    /// The label that the peer takes packets of the pseudowire with.
    pub label: Label,
    /// What the peer tells of the pseudowire.
    pub told: Told,
}

impl Binding {
    // The same with this status.
    pub(crate) fn with_status(&self, status: PwStatus) -> Binding
        ensures { result ≡ binding_with_status status self.now }
    {
        Binding {
            label: self.label,
            told: self.told.with_status(status),
        }
    }
}

// Whether a message with this label, or with none, is about the label.
pub(crate) fn is_named(label: Option<Label>, own: Label) -> bool
    ensures { result ≡ names label own }
{
    match label {
        Some(label) => label == own,
        None => true,
    }
}

// Whether there is a binding of the group.
pub(crate) fn is_of_group(group: u32, remote: Option<&Binding>) -> bool
    ensures { result ≡ is_in_group group (option_copied remote.entry) }
{
    match remote {
        Some(binding) => binding.told.group == group,
        None => false,
    }
}
