//! Pieces of the line of a message. Each is added at the end of a text; after `NoMemory` a front of the piece may
//! stand there.
ghost use Rattle.std.specs.{Prelude.{◌≡◌, ◌≤◌, ◌++◌, ◌∷◌, [], codes, length, map, OnOk}, Fmt.{decimal}};
ghost use Rattle.text_pieces.specs.Pieces.{spaced};
ghost use Rattle.message_text.specs.Words.{dotted, flag, id_word, parted};

use crate::laid::{
    ROOM, lay_address, lay_marked, lay_marked_number, lay_number, lay_octet, lay_text,
};
use ldp_grammar::LdpId;
use net_values::{Addr, NoMemory};
use text_pieces::{put_number, put_text, put_word};

/// The number of a bit.
#[tactic(auto, using(crate::proofs::WordLemmas::bit_digit))]
pub fn bit(set: bool) -> u32
    ensures { decimal result ≡ flag set }
{
    u32::from(set)
}

/// Adds a number under its name, with a blank before it.
pub fn put_told(text: &mut Vec<u8>, name: &[u8], number: u64) -> Result<(), NoMemory>
    ensures { OnOk result (text.new.items ≡ text.old.items ++ spaced ((name.now ++ decimal number) ∷ [])) }
{
    put_word(text, name)?;
    put_number(text, number)
}

/// Adds numbers under their name, with a blank before it and a slash between each two.
pub fn put_told_numbers(
    text: &mut Vec<u8>,
    name: &[u8],
    first: u32,
    rest: &[u32],
) -> Result<(), NoMemory>
    requires short { length name.now ≤ 8 }
    requires few { length rest.now ≤ 5 }
    ensures { OnOk result (text.new.items ≡ text.old.items ++ (codes " " ++ (name.now ++ parted (codes "/") (decimal first ∷ map decimal rest.now)))) }
{
    let mut room = [0u8; ROOM];
    let mut begin = lay_marked(&mut room, ROOM, b'/', rest);
    begin = lay_number(&mut room, begin, first);
    begin = lay_text(&mut room, begin, name);
    begin = lay_octet(&mut room, begin, b' ');
    put_text(text, &room[begin..])
}

/// Adds an address as a dotted quad.
pub fn put_address(text: &mut Vec<u8>, address: Addr) -> Result<(), NoMemory>
    ensures { OnOk result (text.new.items ≡ text.old.items ++ dotted address) }
{
    let mut room = [0u8; ROOM];
    let begin = lay_address(&mut room, ROOM, address);
    put_text(text, &room[begin..])
}

/// Adds a slash and an LDP Identifier: the router ID as a dotted quad, a colon and the label space.
pub fn put_id(text: &mut Vec<u8>, id: LdpId) -> Result<(), NoMemory>
    ensures { OnOk result (text.new.items ≡ text.old.items ++ (codes "/" ++ id_word id)) }
{
    let mut room = [0u8; ROOM];
    let mut begin = lay_marked_number(&mut room, ROOM, b':', u32::from(id.space));
    begin = lay_address(&mut room, begin, id.router);
    begin = lay_octet(&mut room, begin, b'/');
    put_text(text, &room[begin..])
}
