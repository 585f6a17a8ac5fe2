//! How many events and rows a document has at most.

/// The most events.
pub const MOST_EVENTS: u32 = 100_000;

/// The most edges.
pub const MOST_EDGES: u32 = 64;

/// The most services.
pub const MOST_SERVICES: u32 = 64;

/// The most groups.
pub const MOST_GROUPS: u32 = 2_048;

/// The most circuits.
pub const MOST_CIRCUITS: u32 = 512;

/// The most wires.
pub const MOST_WIRES: u32 = 1_024;
