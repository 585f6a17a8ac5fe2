//! Entries of a label stack.

/// An entry of a label stack (RFC 3032 section 2.1). Its traffic class is not looked at.
#[derive(Clone, Copy, Debug, PartialEq, Eq)]
pub struct StackEntry {
    /// The label, of 20 bits.
    pub label: u32,
    /// Whether it is the bottom of the stack.
    pub bottom: bool,
    /// The time to live, 1 to 255.
    pub ttl: u8,
}
