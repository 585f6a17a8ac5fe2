//! A spoke to choose from.

/// A spoke of a spoke edge, as the choice sees it (RFC 6870).
#[derive(Clone, Copy, Debug, PartialEq, Eq)]
pub struct Spoke {
    /// Its priority number; of two spokes that with the lesser number comes first.
    pub priority: u8,
    /// Whether it would forward at this edge if it were chosen.
    pub usable: bool,
}
