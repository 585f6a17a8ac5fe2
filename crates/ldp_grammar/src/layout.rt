//! The layouts of the TLVs that are read.
ghost use Rattle.std.specs.Prelude.{◌≡◌};
ghost use Rattle.ldp_grammar.specs.Layouts.{field_of, fits, most};

use crate::tlv_type::{
    ADDRESS_LIST, FEC, HELLO_PARAMETERS, LABEL, MAC_LIST, PW_STATUS, REQUEST_ID,
    SESSION_PARAMETERS, STATUS, SWITCHING_POINT, TRANSPORT_ADDRESS,
};
use byteorder::{BigEndian, ByteOrder};
use net_values::Field;

/// The TLV of a type, without U and F bit; `None` exactly where the type is of none that is read.
pub fn field_of_type(tlv: u16) -> Option<Field>
    ensures { result ≡ field_of tlv }
{
    match tlv {
        FEC => Some(Field::Fec),
        ADDRESS_LIST => Some(Field::AddressList),
        LABEL => Some(Field::Label),
        STATUS => Some(Field::Status),
        HELLO_PARAMETERS => Some(Field::Hello),
        TRANSPORT_ADDRESS => Some(Field::Transport),
        MAC_LIST => Some(Field::MacList),
        SESSION_PARAMETERS => Some(Field::Session),
        REQUEST_ID => Some(Field::RequestId),
        PW_STATUS => Some(Field::PwStatus),
        SWITCHING_POINT => Some(Field::Point),
        _ => None,
    }
}

/// Whether the Length of a value fits the layout of its TLV (RFC 5036 sections 3.4 and 3.5, RFC 8077 section 6.3.2, RFC
/// 4762 section 6.2). It does of every FEC and switching point: `pw_tlvs` says what they may hold.
pub fn is_fitting(field: Field, value: &[u8]) -> bool
    ensures { result ≡ fits field value.now }
{
    match field {
        Field::AddressList if value.len() < 2 => false,
        Field::AddressList => !(BigEndian::read_u16(value) == 1 && (value.len() - 2) % 4 != 0),
        Field::Status => value.len() == 10,
        Field::Label | Field::Hello | Field::Transport => value.len() == 4,
        Field::RequestId | Field::PwStatus => value.len() == 4,
        Field::MacList => value.len() % 6 == 0,
        Field::Session => value.len() == 14,
        _ => true,
    }
}

/// How often a TLV may stand in one message that lists it.
pub fn most_of(field: Field) -> usize
    ensures { result ≡ most field }
{
    match field {
        Field::Point => 3,
        _ => 1,
    }
}
