//! The capture of the frames that left a circuit in a run, as a file that Wireshark reads.
//!
//! `specs/Capture.antt` says which frames at what times; `pcap_file` has the octets of a capture.
#![tactic(auto)]

mod capture;
mod record;

pub use capture::put_capture;
