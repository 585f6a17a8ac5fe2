//! Versions of documents.

/// The version of a document.
#[derive(Clone, Copy, Debug, PartialEq, Eq)]
pub enum DocumentVersion {
    /// What the ends of a wire offer stands at the wire's own keys.
    One,
    /// It stands in tables of its own, and groups have names.
    Two,
}
