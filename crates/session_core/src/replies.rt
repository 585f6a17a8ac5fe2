//! What a call of a session puts.
ghost use Rattle.std.specs.Prelude.{◌≡◌, ◌∷◌, ◌≤◌, ◌==◌, [], length, slice_get};

use crate::Reply;
use crate::held_replies::HeldReplies;
use std::marker::Model;

/// What is to be put to the peer, in this order: at most two replies. They are held inline. Contracts see them as the list
/// of the replies.
#[derive(Clone, Copy, PartialEq, Eq)]
pub struct Replies {
    held: HeldReplies,
}

impl Model for Replies {
    ghost use Rattle.std.specs.Prelude.{List};
    ghost use Rattle.session_core.specs.{declared.reply.Reply.{Reply}, Replies.{replies_in, held_replies, held_replies_again}};

    ghost Value = { List Reply };

    ghost view = { λ r. replies_in r.held };

    ghost inverse = { λ replies. record { held = held_replies replies } };

    ghost inverse_ok = { λ a h i. record { held = held_replies_again a.held i } };
}

impl Replies {
    // No replies.
    pub(crate) fn none() -> Replies
        ensures { result ≡ [] }
    {
        Replies {
            held: HeldReplies::None,
        }
    }

    // One reply.
    pub(crate) fn one(reply: Reply) -> Replies
        ensures { result ≡ reply ∷ [] }
    {
        Replies {
            held: HeldReplies::One(reply),
        }
    }

    // Two replies in order.
    pub(crate) fn two(first: Reply, second: Reply) -> Replies
        ensures { result ≡ first ∷ second ∷ [] }
    {
        Replies {
            held: HeldReplies::Two(first, second),
        }
    }

    /// The number of replies, at most two.
    pub fn len(&self) -> usize
        ensures count { result ≡ length self.now }
        ensures within { result ≤ 2 }
    {
        match self.held {
            HeldReplies::None => 0,
            HeldReplies::One(..) => 1,
            HeldReplies::Two(..) => 2,
        }
    }

    /// Whether there is no reply.
    pub fn is_empty(&self) -> bool
        ensures { result ≡ (length self.now == 0) }
    {
        matches!(self.held, HeldReplies::None)
    }

    /// The reply at an index from 0; `None` exactly where the index is not below the number of replies.
    pub fn get(&self, index: usize) -> Option<Reply>
        ensures { result ≡ slice_get self.now index }
    {
        match (self.held, index) {
            (HeldReplies::One(reply), 0) | (HeldReplies::Two(reply, _), 0) => Some(reply),
            (HeldReplies::Two(_, reply), 1) => Some(reply),
            _ => None,
        }
    }
}
