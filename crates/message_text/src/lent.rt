//! The lines of messages that are lent.
ghost use Rattle.std.specs.Prelude.{OnOk};
ghost use Rattle.message_text.specs.Lent.{AddsLine, AddsLines};

use crate::line::{put_keep_alive, put_message};
use ldp_codec::{MessageView, PduView};
use net_values::NoMemory;
use std::alloc::Global;

// Adds the line of a message that is lent, and read for it. It stands apart, so that room for the message is made for such a line alone.
#[tactic(auto, using(crate::proofs::LentLemmas::read_line))]
fn put_read(
    alloc: Global,
    text: &mut Vec<u8>,
    base: u64,
    view: &MessageView<'_>,
) -> Result<(), NoMemory>
    ensures { OnOk result (AddsLine base view.now text.old.items text.new.items) }
{
    let message = view.read(alloc)?;
    put_message(text, base, &message)
}

/// Adds the lines of the messages of a PDU that is lent, and begins at this place of its stream. A KeepAlive tells no more than its
/// Message ID and is not read.
#[tactic(auto, using(crate::proofs::LentLemmas::adds_keep_alive, crate::proofs::LentLemmas::adds_none, crate::proofs::LentLemmas::adds_more, crate::proofs::LentLemmas::adds_all))]
pub fn put_views(
    alloc: Global,
    text: &mut Vec<u8>,
    base: u64,
    pdu: &PduView<'_>,
) -> Result<(), NoMemory>
    ensures { OnOk result (AddsLines base pdu.now.spellings text.old.items text.new.items) }
{
    let mut left = pdu.messages();
    'adding: while let Some(message) = left.next() {
        if message.is_keep_alive() {
            put_keep_alive(text, base, message.number())?;
        } else {
            put_read(alloc, text, base, &message)?;
        }
    }
    Ok(())
}
