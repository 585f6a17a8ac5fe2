//! Words.

/// A word of a line, which is turned into octets as it is put.
#[derive(Clone, Copy)]
pub enum LineWord<'a> {
    /// Octets as they are.
    Text(&'a [u8]),
    /// A number in decimal.
    Number(u64),
    /// A number behind a label.
    Labelled(&'a [u8], u64),
    /// A number with a mark behind it.
    Marked(u64, &'a [u8]),
    /// Octets in hexadecimal, in lower case.
    Hex(&'a [u8]),
}
