//! How replies are held.

use crate::Reply;

/// At most two replies, held inline.
#[derive(Clone, Copy, PartialEq, Eq)]
pub enum HeldReplies {
    None,
    One(Reply),
    Two(Reply, Reply),
}
