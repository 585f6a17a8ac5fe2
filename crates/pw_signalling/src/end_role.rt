//! What an end is to its service.

/// What an end is to its service (RFC 4762 section 4, RFC 6870): it tells which end may stand by.
#[derive(Clone, Copy, Debug, PartialEq, Eq)]
pub enum EndRole {
    /// An end of a mesh wire.
    Mesh,
    /// A core edge's end of a spoke.
    Core,
    /// A spoke edge's end of the spoke that it chose.
    Chosen,
    /// A spoke edge's end of another spoke.
    NotChosen,
}
