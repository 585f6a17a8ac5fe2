//! A read of a shelf.

/// A read as it was answered: of which file, from which place on, in octets, how many octets there was room for, the octets that
/// were read, and whether it failed: then none were.
#[derive(Clone, Copy, Drop)]
pub struct Read<'a> {
    pub name: &'a str,
    pub from: u64,
    pub room: usize,
    pub octets: &'a [u8],
    pub failed: bool,
}
