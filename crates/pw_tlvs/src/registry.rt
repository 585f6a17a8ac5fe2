//! The registries of sub-TLV types.

/// The registry that the type of a sub-TLV is of. It settles which types are known, and what a length counts.
#[derive(Clone, Copy, Debug, PartialEq, Eq)]
pub enum Registry {
    /// An interface parameter of a PWid FEC element (RFC 8077 section 6.4, RFC 4446 section 3.3).
    InterfaceParameter,
    /// A part of a Switching Point PE TLV (RFC 6073 section 7.4.1).
    SwitchingPointPart,
}
