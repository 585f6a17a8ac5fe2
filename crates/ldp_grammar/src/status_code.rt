//! Status codes.

/// What a Status TLV says (RFC 5036 section 3.4.6).
#[derive(Clone, Copy, Debug, PartialEq, Eq)]
pub struct StatusCode {
    /// The E bit: the session ends.
    pub fatal: bool,
    /// The F bit: the notification is to be forwarded.
    pub forward: bool,
    /// The status data, 30 bits.
    pub code: u32,
    /// The Message ID of the message that the status is about; 0 for none.
    pub message: u32,
    /// The type of that message; 0 for none.
    pub kind: u16,
}
