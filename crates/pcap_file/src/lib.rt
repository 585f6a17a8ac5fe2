//! Captures of Ethernet frames in libpcap's capture file format, read and written.
//!
//! A capture is a header and records, one for each frame. `specs/Records.antt` says which octets are a capture of which
//! frames, and `specs/FirstFault.antt` what the first fault of other octets is.
#![tactic(auto)]

mod capture_fault;
mod capture_field;
mod endianness;
mod fields;
mod laws;
mod reading;
mod writing;

pub use capture_fault::CaptureFault;
pub use capture_field::CaptureField;
pub use laws::{each_is_read, one_reading, written_is_read};
pub use reading::read_capture;
pub use writing::{write_header, write_record};
