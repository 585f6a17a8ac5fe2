//! The frames of a capture.
ghost use Rattle.std.specs.Prelude.{◌≡◌, ◌≤◌, ◌<◌, ◌+◌, ◌++◌, ◌∷◌, ◌^◌, [], ℕ, List, length, take, Some, Ok, Err, IfOk, IfErr, OnOk};
ghost use Rattle.pcap_file.specs.{declared.capture_fault.CaptureFault.{CaptureFault}, Answers.{TellsCaptureFault, IsCaptureUnlessNoMemory}};
ghost use Rattle.pcap_file.specs.{Fields.{first_field_fault, record_fields}, FirstFault.{IsHeaderFault, IsFirstFault, HasBrokenRecord}};
ghost use Rattle.pcap_file.specs.Records.{HasHeader, IsCapture, AreRecords, IsPacketRecord};

use crate::endianness::Endianness;
use crate::fields::{test_header, test_record};
use crate::{CaptureFault, CaptureField};
use byteorder::{BigEndian, ByteOrder};
use net_values::{List as Items, NoMemory, Octets};
use std::alloc::Global;

// The octets of a header.
const HEADER: usize = 24;

// The octets of a record before its frame.
const HEAD: usize = 16;

// The byte order of the header that the octets begin with.
#[tactic(auto, using(crate::proofs::FieldLemmas::header_sound))]
fn read_header(bytes: &[u8]) -> Result<Endianness, CaptureFault>
    ensures ok { IfOk result (λ order. HasHeader order bytes.now) }
    ensures fault { IfErr result (IsHeaderFault bytes.now) }
{
    if bytes.len() < 4 {
        return Err(CaptureFault::Truncated {
            at: 0,
            field: CaptureField::Magic,
        });
    }
    match Endianness::told_by(BigEndian::read_u32(bytes)) {
        Some(order) => {
            test_header(order, bytes)?;
            Ok(order)
        }
        None => Err(CaptureFault::Magic { at: 0 }),
    }
}

// The frame of the record that begins with the octets, at this place of the file.
#[tactic(auto, using(crate::proofs::FieldLemmas::record_sound, crate::proofs::RecordLemmas::record_in_front))]
fn first_frame(order: Endianness, octets: &[u8], base: u64) -> Result<&[u8], CaptureFault>
    requires base { base + 20 < 2 ^ 64 }
    ensures frame { IfOk result (λ frame. IsPacketRecord order (record { head = take 16 octets.now; frame = frame.now })) }
    ensures front { IfOk result (λ frame. take (16 + length frame.now) octets.now ≡ take 16 octets.now ++ frame.now) }
    ensures within { IfOk result (λ frame. 16 + length frame.now ≤ length octets.now) }
    ensures fault { IfErr result (λ fault. first_field_fault base order octets.now record_fields ≡ Some fault) }
{
    test_record(order, octets, base)?;
    let captured = order.four_at(8, octets) as usize;
    let (_, data) = octets.split_at(HEAD);
    let (frame, _) = data.split_at(captured);
    Ok(frame)
}

// Adds a frame behind the others.
fn push_frame(alloc: Global, frames: &mut Items<Octets>, frame: &[u8]) -> Result<(), NoMemory>
    ensures { OnOk result (frames.new ≡ frames.old ++ frame.now ∷ []) }
{
    frames.push(Items::from_bytes(alloc, frame)?)
}

// The frames of the records that the octets behind a header are.
#[tactic(auto, using(crate::proofs::RecordLemmas::records_up_to, crate::proofs::RecordLemmas::all_records, crate::proofs::RecordLemmas::broken_at))]
fn read_records(
    alloc: Global,
    order: Endianness,
    octets: &[u8],
) -> Result<Items<Octets>, CaptureFault>
    ensures frames { IfOk result (AreRecords order octets.now) }
    ensures fault { IfErr result (TellsCaptureFault (HasBrokenRecord order octets.now)) }
{
    let mut frames = Items::new(alloc);
    let mut at = 0;
    'reading: while at < octets.len() {
        let (_, rest) = octets.split_at(at);
        let frame = first_frame(order, rest, (HEADER + at) as u64)?;
        match push_frame(alloc, &mut frames, frame) {
            Ok(()) => {}
            Err(NoMemory) => return Err(CaptureFault::NoMemory),
        }
        at += HEAD + frame.len();
    }
    Ok(frames)
}

// The frames, or the first fault: the clauses from which those of the public call are shown.
fn frames_of(alloc: Global, bytes: &[u8]) -> Result<Items<Octets>, CaptureFault>
    ensures frames { IfOk result (IsCapture bytes.now) }
    ensures fault { IfErr result (TellsCaptureFault (IsFirstFault bytes.now)) }
    ensures header { (fault : CaptureFault) → IsHeaderFault bytes.now fault → result ≡ Err fault }
{
    let order = read_header(bytes)?;
    let (_, octets) = bytes.split_at(HEADER);
    read_records(alloc, order, octets)
}

/// The frames of a capture in order, each of at most 262,144 octets, where the octets are a header and records (libpcap's
/// capture file format). The magic tells whether the numbers have their high or their low octet first, and whether times
/// are in microseconds or nanoseconds; times, time zone, accuracy, snap length and original lengths are not looked at.
/// Where the octets are no capture, the answer is their first fault, fields in order. A fault of the header takes no
/// memory, and of a record no memory is taken before all its octets are seen.
pub fn read_capture(alloc: Global, bytes: &[u8]) -> Result<Items<Octets>, CaptureFault>
    ensures frames { IfOk result (IsCapture bytes.now) }
    ensures fault { IfErr result (TellsCaptureFault (IsFirstFault bytes.now)) }
    ensures accepts { (frames : List (List ℕ)) → IsCapture bytes.now frames → IsCaptureUnlessNoMemory result (Ok frames) }
    ensures refuses { (fault : CaptureFault) → IsFirstFault bytes.now fault → IsCaptureUnlessNoMemory result (Err fault) }
    ensures header { (fault : CaptureFault) → IsHeaderFault bytes.now fault → result ≡ Err fault }
{
    frames_of(alloc, bytes)
}
