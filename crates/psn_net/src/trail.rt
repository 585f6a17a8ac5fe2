//! Where something under way comes from.

/// The frame that something comes from, and how far it has come.
#[derive(Clone, Copy, Drop)]
pub struct Trail {
    /// The number of the frame; 0 where it comes from none.
    pub origin: u64,
    /// The segments that have been passed.
    pub hops: u64,
}

/// The trail of what comes from no frame, and has passed no segment.
pub const NO_TRAIL: Trail = Trail { origin: 0, hops: 0 };
