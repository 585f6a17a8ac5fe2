//! The faults of fields.
ghost use Rattle.std.specs.Prelude.{◌≡◌, ◌≤◌, ◌<◌, ◌+◌, ◌^◌, length, None, Some, OnOk, IfErr};
ghost use Rattle.pcap_file.specs.declared.capture_field.CaptureField.TheVariants.{Data as DataOf};
ghost use Rattle.pcap_file.specs.Fields.{field_place, field_size, value_fault as fault_of_value, field_fault as fault_of, first_field_fault, header_fields, record_fields};

use crate::endianness::Endianness;
use crate::{CaptureFault, CaptureField};

// The most octets that are captured of a frame.
const MOST: u32 = 262_144;

// The octets of the field.
fn size(order: Endianness, octets: &[u8], field: CaptureField) -> usize
    requires { field ≡ DataOf → 16 ≤ length octets.now }
    ensures size { result ≡ field_size order octets.now field }
    ensures most { result < 2 ^ 32 }
{
    match field {
        CaptureField::Major | CaptureField::Minor => 2,
        CaptureField::Data => order.four_at(8, octets) as usize,
        _ => 4,
    }
}

// The fault of a field that is whole.
fn value_fault(
    order: Endianness,
    octets: &[u8],
    base: u64,
    field: CaptureField,
) -> Option<CaptureFault>
    requires base { base + 20 < 2 ^ 64 }
    requires whole { field_place field + field_size order octets.now field ≤ length octets.now }
    ensures { result ≡ fault_of_value base order octets.now field }
{
    match field {
        CaptureField::Major if order.two_at(4, octets) != 2 => Some(CaptureFault::Version {
            at: base + 4,
        }),
        CaptureField::Minor if order.two_at(6, octets) != 4 => Some(CaptureFault::Version {
            at: base + 4,
        }),
        CaptureField::Network if order.four_at(20, octets) != 1 => Some(CaptureFault::Network {
            at: base + 20,
        }),
        CaptureField::Captured if order.four_at(8, octets) > MOST => Some(CaptureFault::Length {
            at: base + 8,
        }),
        _ => None,
    }
}

// Tests a field of the header or record that begins with the octets, at this place of the file.
fn test(
    order: Endianness,
    octets: &[u8],
    base: u64,
    field: CaptureField,
) -> Result<(), CaptureFault>
    requires base { base + 20 < 2 ^ 64 }
    requires data { field ≡ DataOf → 16 ≤ length octets.now }
    ensures ok { OnOk result (fault_of base order octets.now field ≡ None) }
    ensures whole { OnOk result (field_place field + field_size order octets.now field ≤ length octets.now) }
    ensures err { IfErr result (λ fault. fault_of base order octets.now field ≡ Some fault) }
{
    let place = field.place();
    if octets.len() < place + size(order, octets, field) {
        return Err(CaptureFault::Truncated {
            at: base + place as u64,
            field,
        });
    }
    match value_fault(order, octets, base, field) {
        Some(fault) => Err(fault),
        None => Ok(()),
    }
}

/// Tests the fields of the header behind its magic, in order.
pub fn test_header(order: Endianness, octets: &[u8]) -> Result<(), CaptureFault>
    ensures ok { OnOk result (first_field_fault 0 order octets.now header_fields ≡ None) }
    ensures err { IfErr result (λ fault. first_field_fault 0 order octets.now header_fields ≡ Some fault) }
{
    test(order, octets, 0, CaptureField::Major)?;
    test(order, octets, 0, CaptureField::Minor)?;
    test(order, octets, 0, CaptureField::Zone)?;
    test(order, octets, 0, CaptureField::Accuracy)?;
    test(order, octets, 0, CaptureField::Snap)?;
    test(order, octets, 0, CaptureField::Network)
}

/// Tests the fields of the record that begins with the octets, at this place of the file, in order.
pub fn test_record(order: Endianness, octets: &[u8], base: u64) -> Result<(), CaptureFault>
    requires base { base + 20 < 2 ^ 64 }
    ensures ok { OnOk result (first_field_fault base order octets.now record_fields ≡ None) }
    ensures err { IfErr result (λ fault. first_field_fault base order octets.now record_fields ≡ Some fault) }
{
    test(order, octets, base, CaptureField::Seconds)?;
    test(order, octets, base, CaptureField::Fraction)?;
    test(order, octets, base, CaptureField::Captured)?;
    test(order, octets, base, CaptureField::Original)?;
    test(order, octets, base, CaptureField::Data)
}
