//! The grammar of LDP (RFC 5036 sections 3.1 to 3.5), with the messages of pseudowires (RFC 8077, RFC 4762 section 6.2,
//! RFC 6073 section 7.4): PDUs and messages as values, the row of TLVs that each message has, the layout of each TLV, and
//! which octets spell a PDU.
//!
//! `specs/Spells.antt` says which octets spell a PDU, `specs/FirstFault.antt` which fault stands first where none
//! is spelled, and `specs/Written.antt` which spelling an edge writes. Nothing here reads octets.
#![tactic(auto)]

mod address_list;
mod cause;
mod fault;
mod headers;
mod laws;
mod layout;
mod ldp_id;
mod message;
mod message_kind;
mod message_type;
mod pdu;
mod session_params;
mod status_code;
mod tlv_part;
mod tlv_type;
mod why;
mod writable;

pub use address_list::AddressList;
pub use cause::Cause;
pub use fault::Fault;
pub use headers::{
    LEAST_LENGTH, LENGTH_HEADER, MESSAGE_HEADER, PDU_HEADER, TLV_HEADER, U_BIT, VERSION,
};
pub use laws::{each_is_read, one_reading, written_is_read, written_is_short};
pub use layout::{field_of_type, is_fitting, most_of};
pub use ldp_id::LdpId;
pub use message::Message;
pub use message_kind::MessageKind;
pub use pdu::Pdu;
pub use session_params::SessionParams;
pub use status_code::StatusCode;
pub use tlv_part::TlvPart;
pub use tlv_type::{
    ADDRESS_LIST, FEC, HELLO_PARAMETERS, LABEL, MAC_LIST, PW_STATUS, REQUEST_ID,
    SESSION_PARAMETERS, STATUS, SWITCHING_POINT, TRANSPORT_ADDRESS,
};
pub use why::Why;
pub use writable::{is_writable, message_size, points_size};
