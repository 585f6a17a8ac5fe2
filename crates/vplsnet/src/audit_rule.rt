//! The rules by which a report is audited.

/// A rule by which a report is audited. The first one that fails is told.
#[derive(Clone, Copy, Debug, PartialEq, Eq)]
pub enum AuditRule {
    /// The text is a report of the plan.
    Form,
    /// Each frame that left had entered before, at a circuit of the same service.
    Isolated,
    /// No packet was sent from one mesh wire to another one (RFC 4762 section 4.4).
    Split,
    /// Each flooded frame that entered a calm service left exactly once at each other circuit of it.
    Once,
}
