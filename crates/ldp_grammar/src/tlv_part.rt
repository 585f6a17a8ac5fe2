//! What a TLV is to a message.

/// What a TLV of a type is to a message.
#[derive(Clone, Copy, Debug, PartialEq, Eq)]
pub enum TlvPart {
    /// The message needs it.
    Needed,
    /// The message may have it.
    Further,
    /// It may stand there with any content and any number of times, and is not read.
    PassedOver,
    /// It is unknown there.
    Unknown,
}
