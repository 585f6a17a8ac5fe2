//! Messages whose TLVs are not read yet.

/// A message, split (RFC 5036 section 3.5).
#[derive(Clone, Copy)]
pub struct RawMessage<'a> {
    /// The U bit, and the message type below it.
    pub word: u16,
    /// The Message ID.
    pub id: u32,
    /// The octets of its TLVs.
    pub body: &'a [u8],
}
