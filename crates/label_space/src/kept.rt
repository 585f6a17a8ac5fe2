//! Numbers that are kept to be given again.

use net_base::{EdgeId, Label};

/// A number that was freed, and what it does until it may be given again.
#[derive(Clone, Copy, Debug, PartialEq, Eq)]
pub struct Kept {
    /// The number.
    pub label: Label,
    /// What it does.
    pub state: KeptState,
}

/// What a number does that was freed.
#[derive(Clone, Copy, Debug, PartialEq, Eq)]
pub enum KeptState {
    /// It waits for a new connection with the neighbour that it was given for.
    Waits(EdgeId),
    /// It has rested for so many ticks since that connection began.
    Rests(u8),
    /// It may be given again.
    Free,
}
