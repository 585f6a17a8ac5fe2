//! The fault of a stream in words.
ghost use Rattle.std.specs.{Prelude.{◌≡◌, ◌++◌, ◌∷◌, [], OnOk}, Fmt.{decimal}};
ghost use Rattle.text_pieces.specs.Pieces.{spaced};
ghost use Rattle.message_text.specs.Words.{field_name};
ghost use Rattle.vplsnet.specs.StreamFaultText.{decode_fault_words, stream_fault_words};

use crate::placed_text::put_placed;
use ldp_codec::DecodeFault;
use ldp_stream::StreamFault;
use message_text::field_text;
use net_base::{Field, NoMemory};
use text_pieces::{put_number_word, put_word};

/// Adds the place of the PDU at fault, and its fault's name and fields in order, with a blank before each.
pub fn put_stream_fault(text: &mut Vec<u8>, fault: StreamFault) -> Result<(), NoMemory>
    ensures { OnOk result (text.new.items ≡ text.old.items ++ spaced (stream_fault_words fault)) }
{
    match fault {
        StreamFault::Refused { base, fault } => {
            put_number_word(text, base)?;
            put_decode_fault(text, fault)
        }
        StreamFault::NoMemory => put_word(text, b"out of memory"),
    }
}

// Adds a fault of a PDU.
fn put_decode_fault(text: &mut Vec<u8>, fault: DecodeFault) -> Result<(), NoMemory>
    ensures { OnOk result (text.new.items ≡ text.old.items ++ spaced (decode_fault_words fault)) }
{
    match fault {
        DecodeFault::Version { at } => put_placed(text, b"Version", u64::from(at)),
        DecodeFault::PduLength { at } => put_placed(text, b"PduLength", u64::from(at)),
        DecodeFault::MessageLength { at } => put_placed(text, b"MessageLength", u64::from(at)),
        DecodeFault::TlvLength { at } => put_placed(text, b"TlvLength", u64::from(at)),
        DecodeFault::TlvValue { at, field } => put_of_field(text, b"TlvValue", at, field),
        DecodeFault::Repeated { at, field } => put_of_field(text, b"Repeated", at, field),
        DecodeFault::NoMemory => put_word(text, b"out of memory"),
    }
}

// Adds a fault's name, its place and its field.
fn put_of_field(text: &mut Vec<u8>, name: &[u8], at: u16, field: Field) -> Result<(), NoMemory>
    ensures { OnOk result (text.new.items ≡ text.old.items ++ spaced (name.now ∷ decimal at ∷ field_name field ∷ [])) }
{
    put_placed(text, name, u64::from(at))?;
    put_word(text, field_text(field).as_bytes())
}
