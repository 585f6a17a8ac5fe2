//! Labels of Label Mappings.

use net_values::Label;
use pw_tlvs::{Points, PwStatus};

/// The label that a Label Mapping binds to its FEC, and what it tells with it (RFC 5036 section 3.5.7, RFC 8077 section
/// 6.3.2, RFC 6073 section 7.4).
#[derive(Clone, Copy)]
pub struct MappedLabel {
    pub label: Label,
    /// The PW status, where it is told.
    pub state: Option<PwStatus>,
    /// The switching points, in order.
    pub points: Points,
}
