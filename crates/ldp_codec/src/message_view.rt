//! Messages that are lent.
ghost use Rattle.std.specs.Prelude.{◌≡◌, ◌≤◌, ◌<◌, ◌%◌, ◌^◌, ◌↔◌, true, List, None, length, option_map, IfOk, IsSome};
ghost use Rattle.ldp_grammar.specs.Rows.{kind_of, type_of};
ghost use Rattle.ldp_grammar.specs.declared.message.Message.TheVariants as message;
ghost use Rattle.ldp_grammar.specs.{Spells.{Spelling, IsSpelling, StandsFor}, Tlvs.{Tlv, IsJoined, value_of}};
ghost use Rattle.ldp_codec.specs.{Part.{joined}, Views.{IsSoundSpelling}};

use crate::Part;
use crate::message_body::{processable, processed};
use crate::part::ROOM;
use crate::part_search::find_part;
use crate::tlv_index::index_tlvs;
use ldp_grammar::{Message, MessageKind, U_BIT};
use net_values::NoMemory;
use std::alloc::Global;
use std::marker::Model;

/// A message without fault, lent from the octets that spell it. Contracts see the word with its U bit and type, its
/// Message ID and the octets behind that.
#[derive(Debug, Drop)]
pub struct MessageView<'a> {
    word: u16,
    number: u32,
    body: Part<'a>,
}

impl<'a> Model for MessageView<'a> {
    ghost use Rattle.std.specs.Prelude.{◌≤◌, length};
    ghost use Rattle.ldp_grammar.specs.Spells.{Spelling, IsSpelling};
    ghost use Rattle.ldp_codec.specs.{Part.{joined}, Views.{IsSoundSpelling}};

    ghost Value = { Spelling };

    ghost view = { λ m. record { word = m.word; id = m.number; body = joined m.body } };

    ghost invariant = { λ m. IsSpelling (record { word = m.word; id = m.number; body = joined m.body }) × IsSoundSpelling (record { word = m.word; id = m.number; body = joined m.body }) × (length (joined m.body) ≤ 4100) };
}

impl<'a> MessageView<'a> {
    /// The message with this word, Message ID and octets behind it.
    pub(crate) fn of(word: u16, number: u32, body: Part<'a>) -> MessageView<'a>
        requires fit { IsSpelling (record { word = word; id = number; body = joined body }) }
        requires sound { IsSoundSpelling (record { word = word; id = number; body = joined body }) }
        requires few { length (joined body) ≤ 4100 }
        ensures { result ≡ record { word = word; id = number; body = joined body.entry } }
    {
        MessageView { word, number, body }
    }

    /// The type, without U bit.
    pub fn kind(&self) -> u16
        ensures { result ≡ self.now.word % 2 ^ 15 }
    {
        self.word % U_BIT
    }

    /// The Message ID.
    pub fn number(&self) -> u32
        ensures { result ≡ self.now.id }
    {
        self.number
    }

    /// The value of the first TLV of a type, without U and F bit; `None` exactly where the message has none, or is of a type
    /// that is not known.
    pub fn value(&self, tlv: u16) -> Option<Part<'a>>
        ensures value { (ts : List Tlv) → IsSome (kind_of (self.now.word % 2 ^ 15)) → IsJoined self.now.body ts → option_map joined result ≡ value_of tlv ts }
        ensures other { kind_of (self.now.word % 2 ^ 15) ≡ None → result ≡ None }
    {
        match MessageKind::of(self.kind()) {
            Some(_) => find_part(tlv, self.body),
            None => None,
        }
    }

    /// Whether it is a KeepAlive with nothing behind its Message ID.
    #[tactic(auto, using(crate::proofs::ViewLemmas::alive))]
    pub fn is_keep_alive(&self) -> bool
        ensures exact { (result ≡ true) ↔ ((self.now.word % 2 ^ 15 ≡ type_of MessageKind.KeepAlive) × (length self.now.body ≡ 0)) }
        ensures stands { result ≡ true → StandsFor self.now (message.KeepAlive self.now.id) }
    {
        self.kind() == MessageKind::KeepAlive.number() && self.body.len() == 0
    }

    /// The message as a value of its own.
    pub fn read(&self, alloc: Global) -> Result<Message, NoMemory>
        ensures { IfOk result (StandsFor self.now) }
    {
        if self.is_keep_alive() {
            return Ok(Message::KeepAlive { id: self.number });
        }
        match self.body.as_slice() {
            Some(body) => read_flat(alloc, self.word, self.number, body),
            None => read_joined(alloc, self.word, self.number, self.body),
        }
    }
}

// The message that octets without fault stand for: of a known kind it is processed, or not for the first reason that holds.
fn read_flat(alloc: Global, word: u16, number: u32, body: &[u8]) -> Result<Message, NoMemory>
    requires few { length body.now ≤ 4100 }
    requires sound { IsSoundSpelling (record { word = word; id = number; body = body.now }) }
    ensures { IfOk result (StandsFor (record { word = word; id = number; body = body.now })) }
{
    let Some(kind) = MessageKind::of(word % U_BIT) else {
        return Ok(Message::Other {
            id: number,
            u: word >= U_BIT,
            kind: word % U_BIT,
        });
    };
    let (unknown, tlvs) = index_tlvs(kind, body);
    match processable(unknown, kind, &tlvs) {
        Ok(element) => processed(alloc, kind, number, &tlvs, element),
        Err(why) => Ok(Message::Unprocessed {
            id: number,
            kind: kind.number(),
            why,
        }),
    }
}

// The same of octets in two pieces, which are joined first.
#[cold]
#[inline(never)]
fn read_joined(alloc: Global, word: u16, number: u32, body: Part<'_>) -> Result<Message, NoMemory>
    requires few { length (joined body) ≤ 4100 }
    requires sound { IsSoundSpelling (record { word = word; id = number; body = joined body }) }
    ensures { IfOk result (StandsFor (record { word = word; id = number; body = joined body.entry })) }
{
    let mut room = [0u8; ROOM];
    body.copy_to(&mut room);
    let (flat, _) = room.split_at(body.len());
    read_flat(alloc, word, number, flat)
}
