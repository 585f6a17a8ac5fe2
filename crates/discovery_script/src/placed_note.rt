//! A note in its place.

use crate::note::Note;

/// A note, and how many entries of the network's trace stand before it.
#[derive(Clone, Copy, Debug, PartialEq, Eq)]
pub struct PlacedNote {
    pub entries: usize,
    pub note: Note,
}
