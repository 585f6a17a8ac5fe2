//! Messages that are lent one after another.
ghost use Rattle.std.specs.Prelude.{◌≡◌, ◌≤◌, ◌<◌, ◌∷◌, [], List, None, length, IfSome};
ghost use Rattle.ldp_grammar.specs.Spells.{Spelling};
ghost use Rattle.ldp_codec.specs.{Part.{joined}, Views.{ArePassed, spellings_of, IsFirstOf}};

use crate::Part;
use crate::message_view::MessageView;
use ldp_grammar::MESSAGE_HEADER;
use std::marker::Model;

/// The messages that are left of a PDU, in order. Contracts see them as they are spelled.
#[derive(Debug, Drop)]
pub struct Messages<'a> {
    rest: Part<'a>,
}

impl<'a> Model for Messages<'a> {
    ghost use Rattle.std.specs.Prelude.{◌≤◌, List, length};
    ghost use Rattle.ldp_grammar.specs.Spells.{Spelling};
    ghost use Rattle.ldp_codec.specs.{Part.{joined}, Views.{ArePassed, spellings_of}};

    ghost Value = { List Spelling };

    ghost view = { λ m. spellings_of (joined m.rest) };

    ghost invariant = { λ m. ArePassed (joined m.rest) (spellings_of (joined m.rest)) × (length (joined m.rest) ≤ 4100) };
}

impl<'a> Messages<'a> {
    /// The messages that the octets are.
    pub(crate) fn of(rest: Part<'a>) -> Messages<'a>
        requires passed { ArePassed (joined rest) (spellings_of (joined rest)) }
        requires few { length (joined rest) ≤ 4100 }
        ensures { result ≡ spellings_of (joined rest.entry) }
    {
        Messages { rest }
    }

    /// The message in front, which is then passed; `None` exactly where none is left.
    #[tactic(auto, using(crate::proofs::SpellingsLemmas::none_left))]
    #[inline(always)]
    pub fn next(&mut self) -> Option<MessageView<'a>>
        ensures some { IfSome result (λ message. self.old ≡ message ∷ self.new) }
        ensures none { result ≡ None → (self.old ≡ []) × (self.new ≡ []) }
    {
        if self.rest.len() == 0 {
            return None;
        }
        let (message, rest) = first_message(self.rest);
        self.rest = rest;
        Some(message)
    }
}

// The message in front, and the octets behind it.
#[tactic(auto, using(crate::proofs::SpellingsLemmas::first_within))]
#[inline(always)]
fn first_message(rest: Part<'_>) -> (MessageView<'_>, Part<'_>)
    requires passed { ArePassed (joined rest) (spellings_of (joined rest)) }
    requires some { 0 < length (joined rest) }
    requires few { length (joined rest) ≤ 4100 }
    ensures first { IsFirstOf (joined rest.entry) result.0 (joined result.1) }
    ensures few { length (joined result.1) ≤ 4100 }
{
    let word = rest.two(0);
    let len = rest.two(2) as usize;
    let number = rest.four(4);
    let (front, behind) = rest.split_at(4 + len);
    let (_, body) = front.split_at(MESSAGE_HEADER);
    (MessageView::of(word, number, body), behind)
}
