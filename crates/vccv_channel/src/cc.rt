//! Control channel types.

/// A type of control channel (RFC 5085 section 5.1).
#[derive(Clone, Copy, Debug, PartialEq, Eq)]
pub enum Cc {
    /// Type 1: an associated channel header in place of the control word (section 5.1.1).
    Header,
    /// Type 2: the label Router Alert above the pseudowire's label (section 5.1.2).
    Alert,
    /// Type 3: a TTL of the pseudowire's label that ends at the far edge (section 5.1.3).
    Expiry,
}
