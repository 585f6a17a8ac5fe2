//! The lines of messages.
ghost use Rattle.std.specs.{Prelude.{◌≡◌, ◌≤◌, ◌++◌, drop, length, OnOk}, Fmt.{decimal}};
ghost use Rattle.ldp_grammar.specs.declared.message.Message.TheVariants.{KeepAlive};
ghost use Rattle.message_text.specs.Line.{decoded_line, decoded_lines};

use crate::laid::{ROOM, lay_digits, lay_number, lay_octet, lay_text};
use crate::names::message_opening;
use crate::parts::put_parts;
use ldp_grammar::Message;
use net_values::NoMemory;
use text_pieces::put_text;

// Lays down what the line of a message begins with: the place of its PDU, its name with what stands around it, and its Message ID.
#[inline(always)]
fn lay_opening(room: &mut [u8], end: usize, base: u64, opening: &[u8], id: u32) -> usize
    requires { (50 ≤ end) × (end ≤ length room.old) × (length opening.now ≤ 20) }
    ensures start { result ≤ end }
    ensures laid { drop result room.new ≡ (decimal base ++ (opening.now ++ decimal id)) ++ drop end room.old }
{
    let mut begin = lay_number(room, end, id);
    begin = lay_text(room, begin, opening);
    lay_digits(room, begin, base)
}

/// Adds the line of a message: the place of its PDU, its name, its Message ID and its parts.
#[tactic(auto, using(crate::proofs::WordLemmas::opening_short))]
pub fn put_message(text: &mut Vec<u8>, base: u64, message: &Message) -> Result<(), NoMemory>
    ensures { OnOk result (text.new.items ≡ text.old.items ++ decoded_line base message.now) }
{
    let mut room = [0u8; ROOM];
    let opening = message_opening(message).as_bytes();
    let begin = lay_opening(&mut room, ROOM, base, opening, message.id());
    put_text(text, &room[begin..])?;
    put_parts(text, message)?;
    text.push(b'\n')?;
    Ok(())
}

/// Adds the line of a KeepAlive with this Message ID: a stream has more of them than of all others, and they have no parts.
pub fn put_keep_alive(text: &mut Vec<u8>, base: u64, id: u32) -> Result<(), NoMemory>
    ensures { OnOk result (text.new.items ≡ text.old.items ++ decoded_line base (KeepAlive id)) }
{
    let mut room = [0u8; ROOM];
    let end = lay_octet(&mut room, ROOM, b'\n');
    let begin = lay_opening(&mut room, end, base, b" KeepAlive id=", id);
    put_text(text, &room[begin..])
}

/// Adds the lines of the messages of a PDU that begins at this place of its stream.
pub fn put_messages(text: &mut Vec<u8>, base: u64, messages: &[Message]) -> Result<(), NoMemory>
    ensures { OnOk result (text.new.items ≡ text.old.items ++ decoded_lines base messages.now) }
{
    for message in messages {
        put_message(text, base, message)?;
    }
    Ok(())
}
