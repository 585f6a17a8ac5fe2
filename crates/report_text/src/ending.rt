//! How a run ended.

/// How a run ended.
#[derive(Clone, Copy, Debug, PartialEq, Eq)]
pub enum Ending {
    /// Every command was done.
    End,
    /// The run stopped, since as many packets as this were under way.
    Crowded { count: u32 },
    /// The run stopped, since the entries had this weight.
    TooMuch { weight: u64 },
}
