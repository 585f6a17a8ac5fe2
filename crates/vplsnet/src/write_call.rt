//! A write of a writer.

/// A write as it ended: the piece, and how many octets from its first one on the writer said it took.
#[derive(Clone, Copy, Drop)]
pub struct WriteCall<'a> {
    pub piece: &'a [u8],
    pub count: usize,
}
