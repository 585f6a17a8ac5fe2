//! The fault of a capture in words.
ghost use Rattle.std.specs.Prelude.{◌≡◌, ◌++◌, OnOk};
ghost use Rattle.text_pieces.specs.Pieces.{spaced};
ghost use Rattle.vplsnet.specs.CaptureFaultText.{capture_fault_words, capture_field_name};

use crate::placed_text::put_placed;
use net_base::NoMemory;
use pcap_file::{CaptureFault, CaptureField};
use text_pieces::put_word;

/// Adds the fault's name and its fields in order, with a blank before each.
pub fn put_capture_fault(text: &mut Vec<u8>, fault: CaptureFault) -> Result<(), NoMemory>
    ensures { OnOk result (text.new.items ≡ text.old.items ++ spaced (capture_fault_words fault)) }
{
    match fault {
        CaptureFault::Magic { at } => put_placed(text, b"Magic", at),
        CaptureFault::Version { at } => put_placed(text, b"Version", at),
        CaptureFault::Network { at } => put_placed(text, b"Network", at),
        CaptureFault::Length { at } => put_placed(text, b"Length", at),
        CaptureFault::Truncated { at, field } => {
            put_placed(text, b"Truncated", at)?;
            put_word(text, capture_field_text(field).as_bytes())
        }
        CaptureFault::NoMemory => put_word(text, b"out of memory"),
    }
}

// The name of a field of a capture.
fn capture_field_text(field: CaptureField) -> &'static str
    ensures { result.now ≡ capture_field_name field }
{
    match field {
        CaptureField::Magic => "Magic",
        CaptureField::Major => "Major",
        CaptureField::Minor => "Minor",
        CaptureField::Zone => "Zone",
        CaptureField::Accuracy => "Accuracy",
        CaptureField::Snap => "Snap",
        CaptureField::Network => "Network",
        CaptureField::Seconds => "Seconds",
        CaptureField::Fraction => "Fraction",
        CaptureField::Captured => "Captured",
        CaptureField::Original => "Original",
        CaptureField::Data => "Data",
    }
}
