//! LDP on the wire: the PDU that octets spell, or their first fault, and the octets of a message (RFC 5036 sections
//! 3.1 to 3.5, RFC 8077, RFC 4762 section 6.2, RFC 6073 section 7.4).
//!
//! The definitions of both stand in `specs/` of `ldp_grammar`.
#![tactic(auto)]

mod content;
mod decode;
mod decode_fault;
mod encode;
mod field_set;
mod mapped_label;
mod message_body;
mod message_head;
mod message_pass;
mod message_view;
mod messages;
mod numbers;
mod part;
mod part_search;
mod pdu_header;
mod pdu_view;
mod points;
mod put_tlvs;
mod raw_message;
mod stop;
mod tlv;
mod tlv_index;
mod tlv_search;
mod tlv_value;
mod tlv_walk;
mod tlvs;
mod values;
mod written_values;

pub use decode::{decode_pdu, read_pdu, view_pdu};
pub use decode_fault::DecodeFault;
pub use encode::encode_into;
pub use message_view::MessageView;
pub use messages::Messages;
pub use part::Part;
pub use pdu_view::{PduView, view_part};
pub use stop::Stop;
