//! What the items of an array are.

/// What all items of an array have to be.
#[derive(Clone, Copy)]
pub enum ItemKind {
    Strings,
    Tables,
}
