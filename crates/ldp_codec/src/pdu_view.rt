//! PDUs that are lent.
ghost use Rattle.std.specs.Prelude.{◌≡◌, ◌≤◌, ◌<◌, Some, None, length, IfErr, IfOk, slice_get};
ghost use Rattle.ldp_grammar.specs.{declared.fault.Fault.{Fault}, FirstFault.{FirstFault}};
ghost use Rattle.ldp_codec.specs.{Part.{joined}, Views.{IsPduOf, IsViewOf}};

use crate::Part;
use crate::message_pass::count_messages;
use crate::message_view::MessageView;
use crate::messages::Messages;
use crate::pdu_header::read_header;
use ldp_grammar::{Fault, LdpId, PDU_HEADER, Pdu};
use net_values::{List, NoMemory};
use std::alloc::Global;
use std::marker::Model;

/// A PDU without fault, lent from the octets that spell it. Contracts see its sender, and its messages as they are
/// spelled.
#[derive(Debug, Drop)]
pub struct PduView<'a> {
    id: LdpId,
    body: Part<'a>,
    count: u16,
}

impl<'a> Model for PduView<'a> {
    ghost use Rattle.std.specs.Prelude.{◌≤◌, length};
    ghost use Rattle.ldp_codec.specs.{Part.{joined}, Views.{AreCounted, SeenPdu, spellings_of}};

    ghost Value = { SeenPdu };

    ghost view = { λ v. record { id = v.id; spellings = spellings_of (joined v.body) } };

    ghost invariant = { λ v. AreCounted (joined v.body) v.count × (length (joined v.body) ≤ 4100) };
}

impl<'a> PduView<'a> {
    /// The sender.
    pub fn id(&self) -> LdpId
        ensures { result ≡ self.now.id }
    {
        self.id
    }

    /// How many messages there are.
    #[tactic(auto, using(crate::proofs::SpellingsLemmas::count_of_counted))]
    pub fn len(&self) -> u16
        ensures { result ≡ length self.now.spellings }
    {
        self.count
    }

    /// The messages in order.
    #[tactic(auto, using(crate::proofs::SpellingsLemmas::passed_of_counted))]
    pub fn messages(&self) -> Messages<'a>
        ensures { result ≡ self.now.spellings }
    {
        Messages::of(self.body)
    }

    /// The message at a place from 0 on; `None` exactly where the place is not below their number.
    #[tactic(auto, using(crate::proofs::SpellingsLemmas::passed_next, crate::proofs::SpellingsLemmas::got_next))]
    pub fn message(&self, index: u16) -> Option<MessageView<'a>>
        ensures { result ≡ slice_get self.now.spellings index }
    {
        let mut messages = self.messages();
        let mut place = 0;
        'passing: while place < index {
            let _passed = messages.next();
            place += 1;
        }
        messages.next()
    }
}

impl<'a> PduView<'a> {
    /// The PDU as a value of its own.
    #[tactic(auto, using(crate::proofs::SpellingsLemmas::reads_none, crate::proofs::SpellingsLemmas::reads_more, crate::proofs::SpellingsLemmas::reads_all))]
    pub fn read(&self, alloc: Global) -> Result<Pdu, NoMemory>
        ensures { IfOk result (IsPduOf self.now) }
    {
        let mut messages = List::new(alloc);
        let mut left = self.messages();
        'reading: while let Some(message) = left.next() {
            messages.push(message.read(alloc)?)?;
        }
        Ok(Pdu {
            id: self.id,
            messages,
        })
    }
}

/// The PDU that the octets spell, or their first fault. `max` is at most 4096.
#[tactic(auto, using(crate::proofs::SpellingsLemmas::view_spelled, ldp_grammar::proofs::PduLemmas::first_inside))]
#[inline(always)]
pub fn view_part(octets: Part<'_>, max: u16) -> Result<PduView<'_>, Fault>
    requires { max ≤ 4096 }
    ensures viewed { IfOk result (IsViewOf (joined octets.entry) max) }
    ensures fault { IfErr result (FirstFault (joined octets.entry) max) }
{
    let id = read_header(octets, max)?;
    let (_, body) = octets.split_at(PDU_HEADER);
    match count_messages(body) {
        Ok(count) => Ok(PduView { id, body, count }),
        Err(fault) => Err(fault.behind(PDU_HEADER as u16)),
    }
}
