//! Places of events in a document.

/// Where an event stands among those of a document.
#[derive(Clone, Copy)]
pub struct EventPlace {
    /// Its number, from 1.
    pub event: u32,
    /// How many `play` stand before it.
    pub plays: u32,
}
