//! The TLV values of pseudowires: the PWid FEC element with its interface parameters (RFC 8077 section 6),
//! the PW Status (RFC 8077 section 6.3.2), the MAC List (RFC 4762 section 6.2) and the Switching Point PE TLV
//! (RFC 6073 section 7.4), read and written.
//!
//! Each call is about a whole TLV value, behind the type and the length of its TLV. The layouts stand in
//! `specs/` as relations on the octets, and so does the first fault of octets that no value is spelled by.
#![tactic(auto)]

mod fec_faults;
mod fec_reading;
mod fec_value;
mod fec_writing;
mod field_fault;
mod found_params;
mod held_points;
mod if_params;
mod laws;
mod macs;
mod macs_fault;
mod met_params;
mod octets;
mod parameters;
mod point;
mod point_reading;
mod point_writing;
mod points;
mod pw_fec;
mod pw_status;
mod registry;
mod sub_tlv;
mod sub_tlv_place;
mod sub_tlv_row;
mod told;

pub use fec_faults::fec_fault;
pub use fec_reading::read_fec;
pub use fec_value::FecValue;
pub use fec_writing::{fec_size, write_fec};
pub use field_fault::FieldFault;
pub use if_params::IfParams;
pub use laws::{followed_is_not_looked_into, one_fault, one_value, written_is_read};
pub use macs::{macs_size, read_macs, write_macs};
pub use macs_fault::MacsFault;
pub use point::Point;
pub use point_reading::read_point;
pub use point_writing::{point_size, write_point};
pub use points::Points;
pub use pw_fec::{PwFec, is_writable_fec};
pub use pw_status::{PwStatus, read_status, write_status};
