//! Why octets are no capture.

use crate::CaptureField;
use thiserror::Error;

/// Why octets are no capture: their first fault, fields in order, where `at` counts octets from the first of the file;
/// or want of memory.
#[derive(Clone, Copy, Debug, PartialEq, Eq, Error)]
pub enum CaptureFault {
    /// The first four octets are none of the four magics. `at` is 0.
    #[error("another magic at {at}")]
    Magic { at: u64 },
    /// The version is not 2.4. `at` is 4.
    #[error("another version at {at}")]
    Version { at: u64 },
    /// The network is not 1, Ethernet. `at` is 20.
    #[error("another network at {at}")]
    Network { at: u64 },
    /// A captured length is above 262,144 octets. `at` is at that field.
    #[error("a captured length above 262144 at {at}")]
    Length { at: u64 },
    /// The file ends before the last octet of this field. `at` is the field's first octet.
    #[error("the file ends within the field at {at}")]
    Truncated { at: u64, field: CaptureField },
    /// Memory was refused.
    #[error("out of memory")]
    NoMemory,
}
